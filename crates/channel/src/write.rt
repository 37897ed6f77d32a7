// The tests of a write to the operation data.
ghost use Rattle.std.specs.Prelude.{◌≡◌};
ghost use Rattle.block.specs.Phases.{phase_number};
ghost use Rattle.block.specs.Values.{ok_unless};
ghost use Rattle.channel.specs.Writes.{is_locked, final_word, is_too_long, is_broken, write_rule};

use crate::code::Digit;
use crate::layout::fixed_words;
use block::attribute::Attribute;
use block::idn::Idn;
use block::idns::is_timing;
use block::keeper::Keeper;
use block::phase::Phase;

// A timing outside phase 2, or a block that is protected in this phase.
pub fn is_locked(phase: Phase, idn: Idn, attribute: Attribute) -> bool
    ensures { result ≡ is_locked (phase_number phase) idn.0 attribute.0 }
{
    (is_timing(idn) && phase != Phase::Two) || attribute.is_protected(phase)
}

// The number of the final word of data of this attribute, where a list has n bytes.
pub fn final_word(attribute: Attribute, n: u16) -> usize
    ensures { result ≡ final_word attribute.0 n }
{
    if attribute.is_list() {
        2 + usize::from(n).div_ceil(2)
    } else {
        usize::from(fixed_words(attribute))
    }
}

fn is_too_long(attribute: Attribute, most: u16, n: u16, k: usize) -> bool
    ensures { result ≡ is_too_long attribute.0 most n k }
{
    k > final_word(attribute, n) || (attribute.is_list() && n > most)
}

fn is_broken(attribute: Attribute, n: u16) -> bool
    ensures { result ≡ is_broken attribute.0 n }
{
    attribute.is_list() && usize::from(n) % attribute.item() != 0
}

// The tests of word k of a write, in their order, where n is the list's length.
// stays: seven parameters, since they travel together at this one call, and a struct would be built only to be taken apart.
pub fn check_write(
    keeper: Keeper,
    locked: bool,
    attribute: Attribute,
    most: u16,
    n: u16,
    k: usize,
    last: bool,
) -> Result<(), Digit>
    ensures { result ≡ ok_unless (write_rule keeper locked attribute.0 most n k last) }
{
    if keeper != Keeper::Master {
        return Err(Digit::ReadOnly);
    }
    if locked {
        return Err(Digit::Locked);
    }
    if is_too_long(attribute, most, n, k) {
        return Err(Digit::Late);
    }
    if is_broken(attribute, n) {
        return Err(Digit::Wrong);
    }
    if last && k < final_word(attribute, n) {
        return Err(Digit::Early);
    }
    Ok(())
}
