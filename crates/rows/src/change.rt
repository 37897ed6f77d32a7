// Changing one block of rows: first whether it may be, then one part of the lent memory at a time.
ghost use Rattle.std.specs.Prelude.{◌≡◌, true, false, MatchOption};
ghost use Rattle.std.specs.List.{slice_get};
ghost use Rattle.block.specs.Lists.{may_replace, may_mark};
ghost use Rattle.rows.specs.Rows.{start_at};
ghost use Rattle.rows.specs.Shown.{marked, resized, written};
ghost use Rattle.rows.specs.Sheets.{sheet_blocks};

use crate::row::State;
use crate::sheet::Sheet;

// Where the new data of a block go, and how long they are.
#[derive(Clone, Copy, PartialEq, Eq, Debug)]
pub struct Room {
    pub start: usize,
    pub length: u16,
}

impl Sheet<'_> {
    // Whether the status of the block at a place may be set.
    pub fn may_mark(&self, place: usize) -> bool
        ensures { result ≡ may_mark (slice_get (sheet_blocks self.now) place) }
    {
        self.plan
            .rows
            .get(place)
            .is_some_and(|row| row.keeper.may_change())
    }

    // The room for data of this length in the block at a place, if they may replace those it has.
    pub fn room_for(&self, place: usize, length: usize) -> Option<Room>
        ensures { MatchOption result (may_replace (slice_get (sheet_blocks self.now) place) «length» ≡ false) (λ m. (may_replace (slice_get (sheet_blocks self.now) place) «length» ≡ true) × (m.start ≡ start_at self.now.plan.rows.now place) × (m.length ≡ «length»)) }
    {
        let row = self.plan.rows.get(place)?;
        if !row.keeper.may_change() || !row.fits(length) {
            return None;
        }
        Some(Room {
            start: row.start,
            length: length as u16,
        })
    }
}

// stays: mark and resize are two functions, since one that takes the change as a closure is longer than both. They write by
// an index, since `get_mut` of a slice says nothing of what the slice ends as: tried, and the goals stay open.

// Sets the status in one state.
pub fn mark(states: &mut [State], place: usize, status: u16)
    ensures { states.new ≡ marked states.old place status }
{
    if place < states.len() {
        states[place].status = status;
    }
}

// Sets the length in one state.
pub fn resize(states: &mut [State], place: usize, length: u16)
    ensures { states.new ≡ resized states.old place length }
{
    if place < states.len() {
        states[place].length = length;
    }
}

// Puts bytes into an area from a place on; bytes that would pass its end are not written.
pub fn write(area: &mut [u8], from: usize, bytes: &[u8])
    ensures { area.new ≡ written area.old from bytes.now }
{
    if from > area.len() || bytes.len() > area.len() - from {
        return;
    }
    let end = from + bytes.len();
    area[from..end].copy_from_slice(bytes);
}
