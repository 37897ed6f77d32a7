// The IDNs that every drive has, each by its name.
ghost use Rattle.std.specs.Prelude.{◌≡◌};
ghost use Rattle.block.specs.Named.{is_timing};

use crate::idn::Idn;

// The cycle of the control unit, and that of the ring.
pub const T_NCYC: Idn = Idn(1);

pub const T_SCYC: Idn = Idn(2);

// The earliest start of the drive's telegram.
pub const T1_MIN: Idn = Idn(3);

// The least time that the drive needs to take the feedback.
pub const T5: Idn = Idn(5);

// The start of the drive's telegram, and the moment at which the feedback is taken.
pub const T1: Idn = Idn(6);

pub const T4: Idn = Idn(7);

// Where the drive's part begins in the master's data telegram, and how long that telegram is.
pub const RECORD_POSITION: Idn = Idn(9);

pub const MDT_LENGTH: Idn = Idn(10);

pub const CLASS_1_DIAGNOSTIC: Idn = Idn(11);

pub const INTERFACE_STATUS: Idn = Idn(14);

// The blocks that have to be valid before phase 4.
pub const PHASE_4_BLOCKS: Idn = Idn(19);

// The blocks that were found invalid on the way to phase 3, and to phase 4.
pub const INVALID_FOR_PHASE_3: Idn = Idn(21);

pub const INVALID_FOR_PHASE_4: Idn = Idn(22);

pub const DIAGNOSTIC_TEXT: Idn = Idn(95);

pub const PHASE_3_CHECK: Idn = Idn(127);

pub const PHASE_4_CHECK: Idn = Idn(128);

// Whether an IDN names one of the timings of the ring.
pub fn is_timing(idn: Idn) -> bool
    ensures { result ≡ is_timing idn.0 }
{
    matches!(
        idn,
        T_NCYC | T_SCYC | T1_MIN | T5 | T1 | T4 | RECORD_POSITION | MDT_LENGTH
    )
}
