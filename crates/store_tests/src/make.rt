// Rows, states and memory for the tests.
use block::attribute::Attribute;
use block::idn::Idn;
use block::keeper::Keeper;
use rows::plan::Plan;
use rows::row::{Row, State};
use store::store::Store;
use table::table::Table;

// fixed data of two bytes, and lists of one-byte, two-byte and four-byte items
pub const UNSIGNED: Attribute = Attribute(0x0011_0001);

pub const SIGNED: Attribute = Attribute(0x0021_0001);

pub const TEXT: Attribute = Attribute(0x0044_0001);

pub const WORDS: Attribute = Attribute(0x0015_0001);

pub const LONGS: Attribute = Attribute(0x0016_0001);

pub const IDNS: Attribute = Attribute(0x0055_0001);

// A row that the master keeps, with no name, unit or limits.
pub fn row(idn: u16, attribute: Attribute, most: u16, start: usize) -> Row<'static> {
    Row {
        idn: Idn(idn),
        keeper: Keeper::Master,
        name: b"",
        attribute,
        unit: b"",
        limits: None,
        most,
        start,
    }
}

// A row of two bytes of fixed data.
pub fn fixed(idn: u16, start: usize) -> Row<'static> {
    row(idn, UNSIGNED, 0, start)
}

pub fn state(length: u16) -> State {
    State { status: 0, length }
}

// How many blocks a table over these rows, states and bytes shows.
pub fn shown<'r>(rows: &'r [Row<'r>], states: &mut [State], bytes: &mut [u8]) -> usize {
    let plan = Plan::new(rows);
    let table = Table::new(&plan, states, bytes);
    table.count()
}

// Whether the block at a place has this content.
pub fn has_content<S: Store>(store: &S, place: usize, bytes: &[u8]) -> bool {
    store.block(place).is_some_and(|view| view.content == bytes)
}
