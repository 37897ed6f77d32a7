// Rows with their states and bytes, read together: the same for a table and a catalogue.
ghost use Rattle.std.specs.Prelude.{◌≡◌, true};
ghost use Rattle.rows.specs.Shown.{is_matched};

use crate::plan::Plan;
use crate::row::State;

// Parts that match: a state for each row, and bytes for all areas.
// stays: three slices beside one another, for the reason that stands at Row.
#[derive(Clone, Copy)]
pub struct Sheet<'a> {
    pub(crate) plan: Plan<'a>,
    pub(crate) states: &'a [State],
    pub(crate) bytes: &'a [u8],
    ghost matched: { is_matched plan.rows.now states.now bytes.now ≡ true },
}
