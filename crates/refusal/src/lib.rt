// Why a call is refused. A refused call changes nothing.
#![tactic(auto)]

ghost use Rattle.std.specs.Prelude.{◌≡◌};
ghost use Rattle.refusal.specs.Refusals.{cause_number, fault_cause, refusal_number, refused_idn};
ghost use Rattle.refusal.specs.declared.Refusal.TheVariants.{Value};

use block::idn::Idn;
use block::value::ValueFault;

// Why the data of a report do not pass.
#[derive(Clone, Copy, PartialEq, Eq, Debug)]
pub enum Cause {
    TooShort = 2,
    TooLong = 3,
    TooLow = 6,
    TooHigh = 7,
    // a broken item of a list, or an IDN that the store lacks
    Broken = 8,
}

impl Cause {
    pub fn number(self) -> u8
        ensures { result ≡ cause_number self }
    {
        self as u8
    }
}

impl From<ValueFault> for Cause {
    ghost from_gives = { λ fault cause. cause ≡ fault_cause fault };

    fn from(fault: ValueFault) -> Cause {
        match fault {
            ValueFault::TooLow => Cause::TooLow,
            ValueFault::TooHigh => Cause::TooHigh,
            ValueFault::UnknownIdn => Cause::Broken,
        }
    }
}

#[derive(Clone, Copy, PartialEq, Eq, Debug)]
pub enum Refusal {
    // making: the address is not 1 to 254
    Address,
    // making: IDN 0, or not above the one before
    Order(Idn),
    // making: the attribute breaks its rules
    Attribute(Idn),
    // making: data or status outside form, limits or known IDNs, or nobody's block invalid
    Content(Idn),
    // making: a demanded block is missing or different
    Demanded(Idn),
    // a telegram of the wrong length
    Length,
    // a telegram to another address
    Addressee,
    // an MDT or AT in phase 0
    PhaseZero,
    // an AT buffer under five bytes
    Buffer,
    // a report on an IDN that the store lacks
    Unknown,
    // a report on a block that the drive does not keep
    Keeper,
    // a report on a timing outside phase 0
    Timing,
    // a report whose data do not pass
    Value(Cause),
    // no order to take
    NoOrder,
    // an order returned to a drive that has none out for it
    Foreign,
}

impl Refusal {
    // stays: a match, since an enum whose variants carry values has no numbers of its own.
    pub fn number(self) -> u8
        ensures { result ≡ refusal_number self }
    {
        match self {
            Refusal::Address => 1,
            Refusal::Order(_) => 2,
            Refusal::Attribute(_) => 3,
            Refusal::Content(_) => 4,
            Refusal::Demanded(_) => 5,
            Refusal::Length => 6,
            Refusal::Addressee => 7,
            Refusal::PhaseZero => 8,
            Refusal::Buffer => 9,
            Refusal::Unknown => 10,
            Refusal::Keeper => 11,
            Refusal::Timing => 12,
            Refusal::Value(_) => 13,
            Refusal::NoOrder => 14,
            Refusal::Foreign => 15,
        }
    }

    // The first offending IDN, where the making of a drive was refused for one.
    pub fn idn(self) -> Option<Idn>
        ensures { result ≡ refused_idn self }
    {
        match self {
            Refusal::Order(idn)
            | Refusal::Attribute(idn)
            | Refusal::Content(idn)
            | Refusal::Demanded(idn) => Some(idn),
            _ => None,
        }
    }
}

impl From<Cause> for Refusal {
    ghost from_gives = { λ cause refusal. refusal ≡ Value cause };

    fn from(cause: Cause) -> Refusal {
        Refusal::Value(cause)
    }
}
