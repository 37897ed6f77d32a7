// The demanded blocks as a table.
use block::attribute::{DataType, LengthCode};
use block::idn::Idn;
use block::idns::{
    CLASS_1_DIAGNOSTIC, DIAGNOSTIC_TEXT, INTERFACE_STATUS, INVALID_FOR_PHASE_3,
    INVALID_FOR_PHASE_4, MDT_LENGTH, PHASE_3_CHECK, PHASE_4_BLOCKS, PHASE_4_CHECK, RECORD_POSITION,
    T_NCYC, T_SCYC, T1, T1_MIN, T4, T5,
};
use block::keeper::Keeper;

// What the attribute of a demanded block says.
// stays: an enum of its own, since a command is a form too, and no lack of one.
#[derive(Clone, Copy)]
pub enum Form {
    Parameter(LengthCode, DataType),
    Command,
}

// What else is asked of a demanded block.
#[derive(Clone, Copy)]
pub enum Asked {
    Nothing,
    // the data are two bytes 0
    Zero,
    // data and status are 0
    Idle,
    // the maximum is at least so many bytes
    Room(u16),
    // the maximum is at least as long as the data of another block
    RoomFor(Idn),
}

#[derive(Clone, Copy)]
pub struct Demand {
    pub idn: Idn,
    pub keeper: Keeper,
    pub form: Form,
    pub asked: Asked,
}

const TIMING: Form = Form::Parameter(LengthCode::TwoBytes, DataType::Unsigned);

const BITS: Form = Form::Parameter(LengthCode::TwoBytes, DataType::Binary);

const IDN_LIST: Form = Form::Parameter(LengthCode::WordList, DataType::IdnType);

const TEXT: Form = Form::Parameter(LengthCode::ByteList, DataType::Text);

// A timing that the master sets, and one that the drive tells; the other timings differ from these in their IDN.
const MASTER_TIMING: Demand = Demand {
    idn: T_NCYC,
    keeper: Keeper::Master,
    form: TIMING,
    asked: Asked::Nothing,
};

const DRIVE_TIMING: Demand = Demand {
    idn: T1_MIN,
    keeper: Keeper::Drive,
    ..MASTER_TIMING
};

// The demanded blocks, in the order of their IDNs.
pub const DEMANDED: [Demand; 16] = [
    Demand {
        idn: T_NCYC,
        ..MASTER_TIMING
    },
    Demand {
        idn: T_SCYC,
        ..MASTER_TIMING
    },
    Demand {
        idn: T1_MIN,
        ..DRIVE_TIMING
    },
    Demand {
        idn: T5,
        ..DRIVE_TIMING
    },
    Demand {
        idn: T1,
        ..MASTER_TIMING
    },
    Demand {
        idn: T4,
        ..MASTER_TIMING
    },
    Demand {
        idn: RECORD_POSITION,
        ..MASTER_TIMING
    },
    Demand {
        idn: MDT_LENGTH,
        ..MASTER_TIMING
    },
    Demand {
        idn: CLASS_1_DIAGNOSTIC,
        keeper: Keeper::Drive,
        form: BITS,
        asked: Asked::Nothing,
    },
    Demand {
        idn: INTERFACE_STATUS,
        keeper: Keeper::Channel,
        form: BITS,
        asked: Asked::Zero,
    },
    Demand {
        idn: PHASE_4_BLOCKS,
        keeper: Keeper::Nobody,
        form: IDN_LIST,
        asked: Asked::Nothing,
    },
    Demand {
        idn: INVALID_FOR_PHASE_3,
        keeper: Keeper::Channel,
        form: IDN_LIST,
        asked: Asked::Room(16),
    },
    Demand {
        idn: INVALID_FOR_PHASE_4,
        keeper: Keeper::Channel,
        form: IDN_LIST,
        asked: Asked::RoomFor(PHASE_4_BLOCKS),
    },
    Demand {
        idn: DIAGNOSTIC_TEXT,
        keeper: Keeper::Channel,
        form: TEXT,
        asked: Asked::Room(32),
    },
    Demand {
        idn: PHASE_3_CHECK,
        keeper: Keeper::Master,
        form: Form::Command,
        asked: Asked::Idle,
    },
    Demand {
        idn: PHASE_4_CHECK,
        keeper: Keeper::Master,
        form: Form::Command,
        asked: Asked::Idle,
    },
];
