// Limits of fixed data, as bit patterns of the block's own length, and their order.
ghost use Rattle.std.specs.Prelude.{◌≡◌, pos};
ghost use Rattle.block.specs.Limits.{value_of, is_below, may_have_limits, limits_kept, patterns};

use crate::attribute::{Attribute, DataType, LengthCode};

#[derive(Clone, Copy, PartialEq, Eq, Debug)]
pub struct Limits {
    pub lower: u32,
    pub upper: u32,
}

// The number of bit patterns of fixed data, and so the first number that does not fit.
// stays: a match of its own, as the number of words of fixed data in channel has one: told by one another, both would be longer.
fn pattern_count(attribute: Attribute) -> i64
    ensures { result ≡ pos (patterns attribute.0) }
{
    match attribute.length_code() {
        Some(LengthCode::TwoBytes) => 0x1_0000,
        _ => 0x1_0000_0000,
    }
}

// The value that a bit pattern stands for in data of this attribute.
pub fn value_of(attribute: Attribute, pattern: u32) -> i64
    ensures { result ≡ value_of attribute.0 pattern }
{
    let count = pattern_count(attribute);
    let value = i64::from(pattern);
    match attribute.data_type() {
        Some(DataType::Signed) if value >= count / 2 => value - count,
        _ => value,
    }
}

// Whether x stands for a lower value than y.
pub fn is_below(attribute: Attribute, x: u32, y: u32) -> bool
    ensures { result ≡ is_below attribute.0 x y }
{
    value_of(attribute, x) < value_of(attribute, y)
}

// Only two- and four-byte data of an unsigned, signed or hexadecimal type may have limits.
pub fn may_have_limits(attribute: Attribute) -> bool
    ensures { result ≡ may_have_limits attribute.0 }
{
    attribute.length_code().is_some_and(|code| !code.is_list())
        && matches!(
            attribute.data_type(),
            Some(DataType::Unsigned | DataType::Signed | DataType::Hexadecimal)
        )
}

// The limits may be there, fit the block's length, and the lower is not above the upper.
pub fn limits_kept(attribute: Attribute, limits: Option<Limits>) -> bool
    ensures { result ≡ limits_kept attribute.0 limits }
{
    let Some(Limits { lower, upper }) = limits else {
        return true;
    };
    let count = pattern_count(attribute);
    may_have_limits(attribute)
        && i64::from(lower) < count
        && i64::from(upper) < count
        && !is_below(attribute, upper, lower)
}
