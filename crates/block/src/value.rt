// The check of a value against its limits; the check of IDNs needs a store beside it.
ghost use Rattle.std.specs.Prelude.{◌≡◌, ◌+◌, slice_index};
ghost use Rattle.block.specs.Numbers.{pattern, word};
ghost use Rattle.block.specs.Values.{cause_of, range_fault, ok_unless};

use crate::attribute::Attribute;
use crate::limits::{Limits, is_below};
use std::array;

#[derive(Clone, Copy, PartialEq, Eq, Debug)]
pub enum ValueFault {
    TooLow = 6,
    TooHigh = 7,
    UnknownIdn = 8,
}

impl ValueFault {
    // The digit by which error codes and reports name the fault.
    pub fn cause(self) -> u16
        ensures { result ≡ cause_of self }
    {
        self as u16
    }
}

// The byte at a place, or 0 past the end.
pub fn byte_at(bytes: &[u8], place: usize) -> u8
    ensures { result ≡ slice_index bytes.now place }
{
    bytes.get(place).copied().unwrap_or(0)
}

// The bit pattern of fixed data.
pub fn pattern_of(bytes: &[u8]) -> u32
    ensures { result ≡ pattern bytes.now }
{
    u32::from_le_bytes(array::from_fn(|place| byte_at(bytes, place)))
}

// The word of two bytes from a place on, low byte first.
pub fn word_at(bytes: &[u8], place: usize) -> u16
    ensures { result ≡ word (slice_index bytes.now place) (slice_index bytes.now (place + 1)) }
{
    match bytes.get(place..) {
        Some([low, high, ..]) => u16::from_le_bytes([*low, *high]),
        Some([low]) => u16::from(*low),
        _ => 0,
    }
}

// The first fault of a pattern against the limits, if any: below, then above.
// stays: attribute and limits as two parameters, for the reason that stands at form_kept in view.rt: they lie beside other parts.
pub fn check_range(
    attribute: Attribute,
    limits: Option<Limits>,
    pattern: u32,
) -> Result<(), ValueFault>
    ensures { result ≡ ok_unless (range_fault attribute.0 limits pattern) }
{
    let Some(Limits { lower, upper }) = limits else {
        return Ok(());
    };
    if is_below(attribute, pattern, lower) {
        return Err(ValueFault::TooLow);
    }
    if is_below(attribute, upper, pattern) {
        return Err(ValueFault::TooHigh);
    }
    Ok(())
}
