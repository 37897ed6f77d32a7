// The error codes of the service channel.
ghost use Rattle.std.specs.Prelude.{◌≡◌};
ghost use Rattle.block.specs.Values.{cause_of};
ghost use Rattle.channel.specs.Codes.{digit_number, code_of};
ghost use Rattle.channel.specs.Controls.{element_number};

use crate::control::Element;
use block::value::ValueFault;

// The last digit of a code: what is wrong.
#[derive(Clone, Copy, PartialEq, Eq, Debug)]
pub enum Digit {
    Missing = 1,
    Early = 2,
    Late = 3,
    ReadOnly = 4,
    Locked = 5,
    TooLow = 6,
    TooHigh = 7,
    Wrong = 8,
    Misused = 9,
}

impl Digit {
    pub fn number(self) -> u16
        ensures { result ≡ digit_number self }
    {
        self as u16
    }
}

// The digit of a value that does not pass its check.
impl From<ValueFault> for Digit {
    ghost from_gives = { λ fault digit. digit_number digit ≡ cause_of fault };

    fn from(fault: ValueFault) -> Digit {
        match fault {
            ValueFault::TooLow => Digit::TooLow,
            ValueFault::TooHigh => Digit::TooHigh,
            ValueFault::UnknownIdn => Digit::Wrong,
        }
    }
}

// What the channel answers in place of a word: what is wrong, and at which element.
#[derive(Clone, Copy, PartialEq, Eq, Debug)]
pub struct Code {
    pub element: Element,
    pub digit: Digit,
}

impl Code {
    pub fn number(self) -> u16
        ensures { result ≡ code_of (element_number self.element) self.digit }
    {
        self.element.number() * 0x1000 + self.digit.number()
    }
}
