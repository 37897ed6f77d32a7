// The rows of a small servo drive: ring timings, a catalogue of fixed data, and product parameters.
use block::attribute::Attribute;
use block::idn::Idn;
use block::idns::{PHASE_3_CHECK, PHASE_4_BLOCKS, T_NCYC, T_SCYC};
use block::keeper::Keeper;
use block::limits::Limits;
use rows::row::{Row, State};

// What this maker adds to the IDNs of the standard.
pub const TYPE_PLATE: Idn = Idn(0x8010);

pub const BACKLASH: Idn = Idn(0x8031);

pub const ENCODER_ERRORS: Idn = Idn(0xd431);

// unsigned two bytes, signed two bytes, text, list of IDNs, list of signed four-byte items, command
const UNSIGNED: Attribute = Attribute(0x0011_0001);

const SIGNED: Attribute = Attribute(0x0021_0001);

const TEXT: Attribute = Attribute(0x0044_0001);

const IDN_LIST: Attribute = Attribute(0x0055_0001);

const LONG_LIST: Attribute = Attribute(0x0026_0001);

const COMMAND: Attribute = Attribute(0x0009_0001);

const CYCLE: Option<Limits> = Some(Limits {
    lower: 62,
    upper: 65500,
});

const VALID: u16 = 0;

const INVALID: u16 = 0x0100;

// Rows of the ring's timings, with the data areas at 0, 2 and 4.
pub static TIMINGS: [Row<'static>; 3] = [
    Row {
        idn: T_NCYC,
        keeper: Keeper::Master,
        name: b"NC cycle time",
        attribute: UNSIGNED,
        unit: b"us",
        limits: CYCLE,
        most: 0,
        start: 0,
    },
    Row {
        idn: T_SCYC,
        keeper: Keeper::Master,
        name: b"Ring cycle time",
        attribute: UNSIGNED,
        unit: b"us",
        limits: CYCLE,
        most: 0,
        start: 2,
    },
    Row {
        idn: PHASE_3_CHECK,
        keeper: Keeper::Master,
        name: b"Phase 3 check",
        attribute: COMMAND,
        unit: b"",
        limits: None,
        most: 0,
        start: 4,
    },
];

pub const TIMING_STATES: [State; 3] = [
    State {
        status: INVALID,
        length: 2,
    },
    State {
        status: INVALID,
        length: 2,
    },
    State {
        status: VALID,
        length: 2,
    },
];

pub const TIMING_BYTES: [u8; 6] = [0xe8, 0x03, 0xd0, 0x07, 0, 0];

// What a maker burns into the drive: which blocks must be valid, and the type plate.
pub static PLATE: [Row<'static>; 2] = [
    Row {
        idn: PHASE_4_BLOCKS,
        keeper: Keeper::Channel,
        name: b"Data for phase 4",
        attribute: IDN_LIST,
        unit: b"",
        limits: None,
        most: 8,
        start: 0,
    },
    Row {
        idn: TYPE_PLATE,
        keeper: Keeper::Channel,
        name: b"Type plate",
        attribute: TEXT,
        unit: b"",
        limits: None,
        most: 16,
        start: 8,
    },
];

pub const PLATE_STATES: [State; 2] = [
    State {
        status: VALID,
        length: 4,
    },
    State {
        status: VALID,
        length: 6,
    },
];

pub const PLATE_BYTES: [u8; 24] = [
    1, 0, 2, 0, 0, 0, 0, 0, 0x53, 0x56, 0x2d, 0x34, 0x30, 0x30, 0, 0, 0, 0, 0, 0, 0, 0, 0, 0,
];

// Product parameters of the axis.
pub static AXIS: [Row<'static>; 2] = [
    Row {
        idn: BACKLASH,
        keeper: Keeper::Master,
        name: b"Backlash",
        attribute: SIGNED,
        unit: b"um",
        limits: Some(Limits {
            lower: 0xfff6,
            upper: 10,
        }),
        most: 0,
        start: 0,
    },
    Row {
        idn: ENCODER_ERRORS,
        keeper: Keeper::Drive,
        name: b"Encoder errors",
        attribute: LONG_LIST,
        unit: b"nm",
        limits: None,
        most: 12,
        start: 2,
    },
];

pub const AXIS_STATES: [State; 2] = [
    State {
        status: VALID,
        length: 2,
    },
    State {
        status: VALID,
        length: 8,
    },
];

pub const AXIS_BYTES: [u8; 14] = [0xfd, 0xff, 7, 0, 0, 0, 0xff, 0xff, 0xff, 0xff, 0, 0, 0, 0];
