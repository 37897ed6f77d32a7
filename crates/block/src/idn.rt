// An identification number names one data block: standard or product, parameter set, number.
ghost use Rattle.std.specs.Prelude.{◌≡◌, ◌+◌, ◌-◌, ◌*◌, true, false, ◌&&◌, Some, MatchOption};
ghost use Rattle.block.specs.Idns.{is_product, set_of, number_of, idn_text, idn_read, fault_text, is_digit};

use std::error::Error;
use std::fmt;
use std::str::FromStr;

#[derive(Clone, Copy, PartialEq, Eq, PartialOrd, Ord, Debug)]
pub struct Idn(pub u16);

// Why a text is no IDN.
#[derive(Clone, Copy, PartialEq, Eq, Debug)]
pub enum IdnFault {
    Form,
    Set,
    Number,
}

impl Idn {
    // The number that names no block, as in an empty entry of a list.
    pub const NONE: Idn = Idn(0);

    // True for a product parameter (P), false for one of the standard (S).
    pub fn is_product(self) -> bool
        ensures { result ≡ is_product self.0 }
    {
        self.0 >= 0x8000
    }

    pub fn set(self) -> u16
        ensures { result ≡ set_of self.0 }
    {
        self.0 / 0x1000 % 8
    }

    pub fn number(self) -> u16
        ensures { result ≡ number_of self.0 }
    {
        self.0 % 0x1000
    }

    // The IDN that a text as S-0-0127 names.
    pub fn parse(text: &[u8]) -> Result<Idn, IdnFault>
        ensures { result ≡ idn_read text.now }
    {
        let [letter, b'-', set, b'-', a, b, c, d] = text else {
            return Err(IdnFault::Form);
        };
        let (Some(set), Some(number)) = (digit_value(*set), four_digits(*a, *b, *c, *d)) else {
            return Err(IdnFault::Form);
        };
        let product = match *letter {
            b'S' => 0,
            b'P' => 0x8000,
            _ => return Err(IdnFault::Form),
        };
        if set > 7 {
            return Err(IdnFault::Set);
        }
        if number > 4095 {
            return Err(IdnFault::Number);
        }
        Ok(Idn(product + set * 0x1000 + number))
    }
}

impl FromStr for Idn {
    type Err = IdnFault;

    ghost from_str_gives = { λ text r. r ≡ idn_read text };

    fn from_str(text: &str) -> Result<Idn, IdnFault> {
        Idn::parse(text.as_bytes())
    }
}

impl fmt::Display for Idn {
    ghost output = { λ i. Some (idn_text i.0) };

    fn fmt<W: fmt::Write>(&self, f: &mut fmt::Formatter<W>) -> fmt::Result {
        let letter = if self.is_product() { 'P' } else { 'S' };
        let set = self.set();
        let number = self.number();
        write!(f, "{letter}-{set}-{number:04}")
    }
}

impl fmt::Display for IdnFault {
    ghost output = { λ fault. Some (fault_text fault) };

    fn fmt<W: fmt::Write>(&self, f: &mut fmt::Formatter<W>) -> fmt::Result {
        f.write_str(match self {
            IdnFault::Form => "not of the form S-0-0127",
            IdnFault::Set => "the set is above 7",
            IdnFault::Number => "the number is above 4095",
        })
    }
}

impl Error for IdnFault {}

// The value of a decimal digit.
fn digit_value(c: u8) -> Option<u16>
    ensures { MatchOption result (is_digit c ≡ false) (λ d. (is_digit c ≡ true) × (d + 48 ≡ c)) }
{
    char::from(c).to_digit(10).map(|digit| digit as u16)
}

// The value of four decimal digits.
fn four_digits(a: u8, b: u8, c: u8, d: u8) -> Option<u16>
    ensures { MatchOption result ((is_digit a && (is_digit b && (is_digit c && is_digit d))) ≡ false) (λ n. ((is_digit a && (is_digit b && (is_digit c && is_digit d))) ≡ true) × (n ≡ (a - 48) * 1000 + (b - 48) * 100 + (c - 48) * 10 + (d - 48))) }
{
    Some(digit_value(a)? * 1000 + digit_value(b)? * 100 + digit_value(c)? * 10 + digit_value(d)?)
}
