// A catalogue: a read-only store over the caller's memory; nobody keeps its blocks.
ghost use Rattle.std.specs.Prelude.{◌≡◌, map};
ghost use Rattle.rows.specs.Sheets.{sheet_blocks};
ghost use Rattle.rows.specs.Shown.{row_blocks, nobodys};
ghost use Rattle.table.specs.Tables.{plan_rows, catalogue_shown, catalogue_few, catalogue_kept};

use block::idn::Idn;
use block::keeper::Keeper;
use block::view::View;
use rows::plan::Plan;
use rows::row::State;
use rows::sheet::Sheet;
use rows::shown::states_fit;
use store::store::Store;

// stays: holds its parts and not a Sheet, since a struct with an invariant cannot be joined by value to a table. Tried: the checker
// covers no call at that type.
#[derive(Clone, Copy)]
pub struct Catalogue<'a> {
    pub(crate) plan: &'a Plan<'a>,
    pub(crate) states: &'a [State],
    pub(crate) bytes: &'a [u8],
    // noted once: the lengths in the states fit
    pub(crate) fits: bool,
}

impl<'a> Catalogue<'a> {
    // A catalogue over rows that were checked; states or memory that do not match them mean no blocks.
    pub fn new(plan: &'a Plan<'a>, states: &'a [State], bytes: &'a [u8]) -> Catalogue<'a>
        ensures { catalogue_shown result ≡ map nobodys (row_blocks (plan_rows plan.now) states.now bytes.now) }
    {
        let fits = states_fit(plan, states);
        Catalogue {
            plan,
            states,
            bytes,
            fits,
        }
    }

    // The catalogue as it is read: no rows if states or bytes do not match them.
    fn sheet(&self) -> Sheet<'a>
        ensures { map nobodys (sheet_blocks result) ≡ catalogue_shown self.now }
    {
        Sheet::noted(self.plan, self.states, self.bytes, self.fits)
    }
}

impl<'a> Store for Catalogue<'a> {
    ghost blocks = { catalogue_shown };

    ghost Rest = { Unit {0} };

    ghost rest = { λ _. tt };

    ghost few = { catalogue_few };

    ghost sound = { catalogue_kept };

    fn count(&self) -> usize {
        self.sheet().count()
    }

    fn find(&self, idn: Idn) -> Option<usize> {
        self.sheet().find(idn)
    }

    fn block(&self, place: usize) -> Option<View<'_>> {
        self.sheet().block(place).map(|view| View {
            keeper: Keeper::Nobody,
            ..view
        })
    }

    fn replace(&mut self, _place: usize, _bytes: &[u8]) -> bool {
        false
    }

    fn set_status(&mut self, _place: usize, _status: u16) -> bool {
        false
    }
}
