// A drive's blocks: the demanded ones, and a torque that the master keeps.
use block::attribute::Attribute;
use block::idn::Idn;
use block::keeper::Keeper;
use block::limits::Limits;
use rows::row::{Row, State};

// stays: IDNs as numbers, so that the tests do not rest on the names.
const TIMING: Attribute = Attribute(0x0011_0001);

const WORD: Attribute = Attribute(0x0001_0001);

const IDNS: Attribute = Attribute(0x0055_0001);

const TEXT: Attribute = Attribute(0x0044_0001);

const COMMAND: Attribute = Attribute(0x0009_0001);

// signed, four bytes
const TORQUE: Attribute = Attribute(0x0022_0001);

const CYCLE: Option<Limits> = Some(Limits {
    lower: 62,
    upper: 65500,
});

const SLOT: Option<Limits> = Some(Limits {
    lower: 0,
    upper: 65500,
});

const POSITION: Option<Limits> = Some(Limits {
    lower: 1,
    upper: 61,
});

const SIZE: Option<Limits> = Some(Limits {
    lower: 4,
    upper: 64,
});

// -100000 to 100000
const SPAN: Option<Limits> = Some(Limits {
    lower: 0xfffe_7960,
    upper: 0x0001_86a0,
});

// The master's timing at the start of memory; each row below says what it has in place of that.
const ROW: Row<'static> = Row {
    idn: Idn(1),
    keeper: Keeper::Master,
    name: b"",
    attribute: TIMING,
    unit: b"",
    limits: None,
    most: 0,
    start: 0,
};

pub static ROWS: [Row<'static>; 17] = [
    Row {
        idn: Idn(1),
        limits: CYCLE,
        ..ROW
    },
    Row {
        idn: Idn(2),
        limits: CYCLE,
        start: 2,
        ..ROW
    },
    Row {
        idn: Idn(3),
        keeper: Keeper::Drive,
        limits: SLOT,
        start: 4,
        ..ROW
    },
    Row {
        idn: Idn(5),
        keeper: Keeper::Drive,
        limits: SLOT,
        start: 6,
        ..ROW
    },
    Row {
        idn: Idn(6),
        limits: SLOT,
        start: 8,
        ..ROW
    },
    Row {
        idn: Idn(7),
        limits: SLOT,
        start: 10,
        ..ROW
    },
    Row {
        idn: Idn(9),
        limits: POSITION,
        start: 12,
        ..ROW
    },
    Row {
        idn: Idn(10),
        limits: SIZE,
        start: 14,
        ..ROW
    },
    Row {
        idn: Idn(11),
        keeper: Keeper::Drive,
        attribute: WORD,
        start: 16,
        ..ROW
    },
    Row {
        idn: Idn(14),
        keeper: Keeper::Channel,
        attribute: WORD,
        start: 18,
        ..ROW
    },
    Row {
        idn: Idn(19),
        keeper: Keeper::Nobody,
        attribute: IDNS,
        most: 4,
        start: 20,
        ..ROW
    },
    Row {
        idn: Idn(21),
        keeper: Keeper::Channel,
        attribute: IDNS,
        most: 16,
        start: 24,
        ..ROW
    },
    Row {
        idn: Idn(22),
        keeper: Keeper::Channel,
        attribute: IDNS,
        most: 4,
        start: 40,
        ..ROW
    },
    Row {
        idn: Idn(95),
        keeper: Keeper::Channel,
        attribute: TEXT,
        most: 32,
        start: 44,
        ..ROW
    },
    Row {
        idn: Idn(127),
        attribute: COMMAND,
        start: 76,
        ..ROW
    },
    Row {
        idn: Idn(128),
        attribute: COMMAND,
        start: 78,
        ..ROW
    },
    Row {
        idn: Idn(0x8031),
        name: b"Torque",
        attribute: TORQUE,
        unit: b"Nm",
        limits: SPAN,
        start: 80,
        ..ROW
    },
];

fn state(status: u16, length: u16) -> State {
    State { status, length }
}

// Only the master's timings are invalid at first; the lists are empty.
pub fn states() -> [State; 17] {
    let invalid = state(0x0100, 2);
    let word = state(0, 2);
    let empty = state(0, 0);
    [
        invalid,
        invalid,
        word,
        word,
        invalid,
        invalid,
        invalid,
        invalid,
        word,
        word,
        empty,
        empty,
        empty,
        empty,
        word,
        word,
        state(0, 4),
    ]
}

// The timings at their lower limits, S-0-0019's memory with P-0-0049, and a torque of -1000.
pub fn memory() -> [u8; 84] {
    let mut bytes = [0; 84];
    bytes[0] = 62;
    bytes[2] = 62;
    bytes[12] = 1;
    bytes[14] = 4;
    bytes[20] = 0x31;
    bytes[21] = 0x80;
    bytes[80] = 0x18;
    bytes[81] = 0xfc;
    bytes[82] = 0xff;
    bytes[83] = 0xff;
    bytes
}
