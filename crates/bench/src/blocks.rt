// The rows of the bench's drive: just the demanded blocks.
use block::attribute::Attribute;
use block::idn::Idn;
use block::idns::{
    CLASS_1_DIAGNOSTIC, DIAGNOSTIC_TEXT, INTERFACE_STATUS, INVALID_FOR_PHASE_3,
    INVALID_FOR_PHASE_4, MDT_LENGTH, PHASE_3_CHECK, PHASE_4_BLOCKS, PHASE_4_CHECK, RECORD_POSITION,
    T_NCYC, T_SCYC, T1, T1_MIN, T4, T5,
};
use block::keeper::Keeper;
use block::limits::Limits;
use rows::row::{Row, State};

const TEXT: Attribute = Attribute(0x0044_0001);

// Rows of each kind, without name and unit; every row names its own IDN and data area.
const TIMING: Row<'static> = Row {
    idn: Idn::NONE,
    keeper: Keeper::Master,
    name: b"",
    attribute: Attribute(0x0011_0001),
    unit: b"",
    limits: Some(Limits {
        lower: 0,
        upper: 65500,
    }),
    most: 0,
    start: 0,
};

const WORD: Row<'static> = Row {
    keeper: Keeper::Drive,
    attribute: Attribute(0x0001_0001),
    limits: None,
    ..TIMING
};

const LIST: Row<'static> = Row {
    keeper: Keeper::Channel,
    attribute: Attribute(0x0055_0001),
    limits: None,
    most: 60,
    ..TIMING
};

const COMMAND: Row<'static> = Row {
    attribute: Attribute(0x0009_0001),
    limits: None,
    ..TIMING
};

const CYCLE: Option<Limits> = Some(Limits {
    lower: 62,
    upper: 65500,
});

const POSITION: Option<Limits> = Some(Limits {
    lower: 1,
    upper: 61,
});

const SIZE: Option<Limits> = Some(Limits {
    lower: 4,
    upper: 64,
});

pub static ROWS: [Row<'static>; 16] = [
    Row {
        idn: T_NCYC,
        limits: CYCLE,
        ..TIMING
    },
    Row {
        idn: T_SCYC,
        limits: CYCLE,
        start: 2,
        ..TIMING
    },
    Row {
        idn: T1_MIN,
        keeper: Keeper::Drive,
        start: 4,
        ..TIMING
    },
    Row {
        idn: T5,
        keeper: Keeper::Drive,
        start: 6,
        ..TIMING
    },
    Row {
        idn: T1,
        start: 8,
        ..TIMING
    },
    Row {
        idn: T4,
        start: 10,
        ..TIMING
    },
    Row {
        idn: RECORD_POSITION,
        limits: POSITION,
        start: 12,
        ..TIMING
    },
    Row {
        idn: MDT_LENGTH,
        limits: SIZE,
        start: 14,
        ..TIMING
    },
    Row {
        idn: CLASS_1_DIAGNOSTIC,
        start: 16,
        ..WORD
    },
    Row {
        idn: INTERFACE_STATUS,
        keeper: Keeper::Channel,
        start: 18,
        ..WORD
    },
    Row {
        idn: PHASE_4_BLOCKS,
        keeper: Keeper::Nobody,
        start: 20,
        ..LIST
    },
    Row {
        idn: INVALID_FOR_PHASE_3,
        start: 80,
        ..LIST
    },
    Row {
        idn: INVALID_FOR_PHASE_4,
        start: 140,
        ..LIST
    },
    Row {
        idn: DIAGNOSTIC_TEXT,
        attribute: TEXT,
        start: 200,
        ..LIST
    },
    Row {
        idn: PHASE_3_CHECK,
        start: 260,
        ..COMMAND
    },
    Row {
        idn: PHASE_4_CHECK,
        start: 262,
        ..COMMAND
    },
];

const INVALID: State = State {
    status: 0x0100,
    length: 2,
};

const VALID: State = State {
    status: 0,
    length: 2,
};

const EMPTY: State = State {
    status: 0,
    length: 0,
};

// Only the master's timings are invalid at first.
pub const STATES: [State; 16] = [
    INVALID, INVALID, VALID, VALID, INVALID, INVALID, INVALID, INVALID, VALID, VALID, EMPTY, EMPTY,
    EMPTY, EMPTY, VALID, VALID,
];

// Data at their lower limits: 62 and 62 for the cycle times, 1 for the position, 4 for the length; lists are empty.
pub const BYTES: [u8; 264] = [
    62, 0, 62, 0, 0, 0, 0, 0, 0, 0, 0, 0, 1, 0, 4, 0, 0, 0, 0, 0, 0, 0, 0, 0, 0, 0, 0, 0, 0, 0, 0,
    0, 0, 0, 0, 0, 0, 0, 0, 0, 0, 0, 0, 0, 0, 0, 0, 0, 0, 0, 0, 0, 0, 0, 0, 0, 0, 0, 0, 0, 0, 0, 0,
    0, 0, 0, 0, 0, 0, 0, 0, 0, 0, 0, 0, 0, 0, 0, 0, 0, 0, 0, 0, 0, 0, 0, 0, 0, 0, 0, 0, 0, 0, 0, 0,
    0, 0, 0, 0, 0, 0, 0, 0, 0, 0, 0, 0, 0, 0, 0, 0, 0, 0, 0, 0, 0, 0, 0, 0, 0, 0, 0, 0, 0, 0, 0, 0,
    0, 0, 0, 0, 0, 0, 0, 0, 0, 0, 0, 0, 0, 0, 0, 0, 0, 0, 0, 0, 0, 0, 0, 0, 0, 0, 0, 0, 0, 0, 0, 0,
    0, 0, 0, 0, 0, 0, 0, 0, 0, 0, 0, 0, 0, 0, 0, 0, 0, 0, 0, 0, 0, 0, 0, 0, 0, 0, 0, 0, 0, 0, 0, 0,
    0, 0, 0, 0, 0, 0, 0, 0, 0, 0, 0, 0, 0, 0, 0, 0, 0, 0, 0, 0, 0, 0, 0, 0, 0, 0, 0, 0, 0, 0, 0, 0,
    0, 0, 0, 0, 0, 0, 0, 0, 0, 0, 0, 0, 0, 0, 0, 0, 0, 0, 0, 0, 0, 0, 0, 0, 0, 0, 0, 0, 0, 0, 0, 0,
    0, 0, 0, 0, 0, 0, 0, 0, 0,
];
