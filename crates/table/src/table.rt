// A table: a store over the caller's memory, whose keepers may change their blocks.
ghost use Rattle.std.specs.Prelude.{◌≡◌, ◌&&◌, [], length, if◌then◌else◌};
ghost use Rattle.std.specs.List.{slice_get};
ghost use Rattle.block.specs.Lists.{changed, with_content, with_status, may_replace, may_mark};
ghost use Rattle.rows.specs.Sheets.{sheet_blocks};
ghost use Rattle.rows.specs.Shown.{row_blocks, states_fit, is_matched};
ghost use Rattle.table.specs.Tables.{plan_rows, table_shown, table_few, table_kept, TableRest, table_rest, lent_to, lent_replaced, lent_marked};

use block::idn::Idn;
use block::view::View;
use rows::change;
use rows::plan::Plan;
use rows::row::State;
use rows::sheet::Sheet;
use rows::shown::states_fit;
use store::store::Store;

// stays: rows, states and bytes lie beside one another, since the caller lends the memory and a drive has no heap; and `fits`
// is a flag, since a struct over memory that is lent for writing can hold no invariant about it and still be joined by value: tried.
#[derive(Drop)]
pub struct Table<'p, 'r, 'a> {
    pub(crate) plan: &'p Plan<'r>,
    pub(crate) states: &'a mut [State],
    pub(crate) bytes: &'a mut [u8],
    // noted once: the lengths in the states fit
    pub(crate) fits: bool,
}

impl<'p, 'r, 'a> Table<'p, 'r, 'a> {
    // A table over rows that were checked; states or memory that do not match them mean no blocks.
    #[tactic(auto, using(rows::proofs::Sheets::made_means))]
    pub fn new(
        plan: &'p Plan<'r>,
        states: &'a mut [State],
        bytes: &'a mut [u8],
    ) -> Table<'p, 'r, 'a>
        ensures blocks { table_shown result ≡ row_blocks (plan_rows plan.now) states.old bytes.old }
        ensures lent { lent_to result ≡ record { plan = plan.entry.now; fits = states_fit (plan_rows plan.entry.now) states.old; state_name = states.entry.ghost_name; byte_name = bytes.entry.ghost_name; states = states.old; bytes = bytes.old } }
    {
        let fits = states_fit(plan, states);
        Table {
            plan,
            states,
            bytes,
            fits,
        }
    }

    // The table as it is read: no rows if states or bytes do not match them.
    fn sheet(&self) -> Sheet<'_>
        ensures blocks { sheet_blocks result ≡ table_shown self.now }
        ensures rows { result.plan.rows.now ≡ (if self.now.fits && is_matched (plan_rows self.now.plan.now) self.now.states.now self.now.bytes.now then plan_rows self.now.plan.now else []) }
    {
        Sheet::noted(self.plan, self.states, self.bytes, self.fits)
    }
}

impl<'p, 'r, 'a> Store for Table<'p, 'r, 'a> {
    ghost blocks = { table_shown };

    ghost Rest = { TableRest };

    ghost rest = { table_rest };

    ghost few = { table_few };

    ghost sound = { table_kept };

    fn count(&self) -> usize {
        self.sheet().count()
    }

    fn find(&self, idn: Idn) -> Option<usize> {
        self.sheet().find(idn)
    }

    fn block(&self, place: usize) -> Option<View<'_>> {
        self.sheet().block(place)
    }

    fn replace(&mut self, place: usize, bytes: &[u8]) -> bool
        ensures value { result ≡ may_replace (slice_get (table_shown self.old) place) (length bytes.now) }
        ensures after { table_shown self.new ≡ (if result then changed (table_shown self.old) place (with_content bytes.now) else table_shown self.old) }
        ensures rest { table_rest self.new ≡ table_rest self.old }
        ensures lent { lent_to self.new ≡ (if result then lent_replaced (lent_to self.old) place bytes.now else lent_to self.old) }
    {
        let Some(room) = self.sheet().room_for(place, bytes.len()) else {
            return false;
        };
        change::write(self.bytes, room.start, bytes);
        change::resize(self.states, place, room.length);
        true
    }

    fn set_status(&mut self, place: usize, status: u16) -> bool
        ensures value { result ≡ may_mark (slice_get (table_shown self.old) place) }
        ensures after { table_shown self.new ≡ (if result then changed (table_shown self.old) place (with_status status) else table_shown self.old) }
        ensures rest { table_rest self.new ≡ table_rest self.old }
        ensures lent { lent_to self.new ≡ (if result then lent_marked (lent_to self.old) place status else lent_to self.old) }
    {
        if !self.sheet().may_mark(place) {
            return false;
        }
        change::mark(self.states, place, status);
        true
    }
}
