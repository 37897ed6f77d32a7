// Reading the blocks of a sheet, each in constant time.
ghost use Rattle.std.specs.Prelude.{◌≡◌, ◌+◌, ◌≤◌, ◌&&◌, [], length, if◌then◌else◌};
ghost use Rattle.std.specs.List.{slice_get};
ghost use Rattle.std.specs.Option.{option_map};
ghost use Rattle.block.specs.Blocks.{seen};
ghost use Rattle.block.specs.Lists.{place_of};
ghost use Rattle.rows.specs.Shown.{shown_length, block_of, states_fit, is_matched, shown_blocks, row_blocks};
ghost use Rattle.rows.specs.Sheets.{sheet_blocks};

use crate::plan::Plan;
use crate::row::{Row, State};
use crate::sheet::Sheet;
use block::attribute::LengthCode;
use block::idn::Idn;
use block::view::View;

// Whether every row has a state, and the length in it fits.
pub fn states_fit(plan: &Plan, states: &[State]) -> bool
    ensures { result ≡ states_fit plan.now.rows.now states.now }
{
    states.len() == plan.rows.len()
        && plan
            .rows
            .iter()
            .zip(states)
            .all(|(row, state)| row.fits(usize::from(state.length)))
}

// The length of a block's data.
fn shown_length(row: &Row, state: State) -> usize
    ensures { result ≡ shown_length row.now state }
{
    let length = usize::from(state.length);
    if row.fits(length) {
        return length;
    }
    match row.attribute.length_code() {
        Some(LengthCode::TwoBytes) => 2,
        Some(LengthCode::FourBytes) => 4,
        _ => 0,
    }
}

// One block, read in place.
fn view<'v>(row: &Row<'v>, state: State, bytes: &'v [u8]) -> View<'v>
    requires { row.now.start + shown_length row.now state ≤ length bytes.now }
    ensures { seen result ≡ block_of row.now state bytes.now }
{
    let end = row.start + shown_length(row, state);
    View {
        idn: row.idn,
        keeper: row.keeper,
        status: state.status,
        name: row.name,
        attribute: row.attribute,
        unit: row.unit,
        limits: row.limits,
        most: row.most,
        content: &bytes[row.start..end],
    }
}

impl<'a> Sheet<'a> {
    // States or bytes that do not match the rows mean no rows.
    pub fn new(plan: &Plan<'a>, states: &'a [State], bytes: &'a [u8]) -> Sheet<'a>
        ensures { sheet_blocks result ≡ row_blocks plan.now.rows.now states.now bytes.now }
    {
        Sheet::noted(plan, states, bytes, states_fit(plan, states))
    }

    // The same in constant time, where `fits` notes that the lengths in the states were found to fit.
    pub fn noted(plan: &Plan<'a>, states: &'a [State], bytes: &'a [u8], fits: bool) -> Sheet<'a>
        ensures blocks { sheet_blocks result ≡ shown_blocks fits plan.now.rows.now states.now bytes.now }
        ensures rows { result.plan.rows.now ≡ (if fits && is_matched plan.now.rows.now states.now bytes.now then plan.now.rows.now else []) }
    {
        if fits && states.len() == plan.rows.len() && plan.size <= bytes.len() {
            return Sheet {
                plan: *plan,
                states,
                bytes,
            };
        }
        Sheet {
            plan: Plan::new(&[]),
            states: &[],
            bytes: &[],
        }
    }

    // How many blocks are shown.
    pub fn count(&self) -> usize
        ensures { result ≡ length (sheet_blocks self.now) }
    {
        self.plan.rows.len()
    }

    // The first place of an IDN.
    pub fn find(&self, idn: Idn) -> Option<usize>
        ensures { result ≡ place_of (sheet_blocks self.now) idn.0 }
    {
        self.plan.find(idn)
    }

    // The block at a place.
    pub fn block(&self, place: usize) -> Option<View<'a>>
        ensures { option_map seen result ≡ slice_get (sheet_blocks self.now) place }
    {
        let row = self.plan.rows.get(place)?;
        let state = self.states.get(place)?;
        Some(view(row, *state, self.bytes))
    }
}
