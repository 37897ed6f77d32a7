// One block as a store shows it: every part, read in place.
ghost use Rattle.std.specs.Prelude.{◌≡◌, length};
ghost use Rattle.block.specs.Blocks.{seen, is_invalid, length_fits, maximum_fits, form_kept};

use crate::attribute::Attribute;
use crate::idn::Idn;
use crate::keeper::Keeper;
use crate::limits::{Limits, limits_kept};

// The most bytes of a name, a unit and a list's data.
pub const NAME_MOST: usize = 60;

pub const UNIT_MOST: usize = 12;

pub const LIST_MOST: u16 = 1020;

// The most blocks that a store may show.
pub const MOST_BLOCKS: usize = 510;

// stays: name and unit as bytes, since they may hold any, and a &str would ask more of whoever lends them.
#[derive(Clone, Copy, PartialEq, Eq, Debug)]
pub struct View<'a> {
    pub idn: Idn,
    pub keeper: Keeper,
    pub status: u16,
    pub name: &'a [u8],
    pub attribute: Attribute,
    pub unit: &'a [u8],
    pub limits: Option<Limits>,
    pub most: u16,
    pub content: &'a [u8],
}

impl View<'_> {
    // Whether the status says that the data are invalid (bit 8).
    pub fn is_invalid(&self) -> bool
        ensures { result ≡ is_invalid (seen self.now) }
    {
        self.status / 0x100 % 2 == 1
    }
}

// Whether n bytes are a possible length of data of this attribute and maximum.
// stays: attribute and maximum as two parameters, here and below, for the reason that stands at form_kept.
pub fn length_fits(attribute: Attribute, most: u16, n: usize) -> bool
    ensures { result ≡ length_fits attribute.0 most n }
{
    let Some(code) = attribute.length_code() else {
        return false;
    };
    if code.is_list() {
        n % code.item() == 0 && n <= usize::from(most)
    } else {
        n == code.item()
    }
}

// Whether a maximum is possible for data of this attribute.
pub fn maximum_fits(attribute: Attribute, most: u16) -> bool
    ensures { result ≡ maximum_fits attribute.0 most }
{
    let Some(code) = attribute.length_code() else {
        return false;
    };
    !code.is_list() || (usize::from(most) % code.item() == 0 && most <= LIST_MOST)
}

// Whether the parts of a block that never change keep the block rules.
// stays: five parameters, since rows, views and the heads of reports hold these parts beside others,
// so a struct of the five would be built for each call, and read once.
pub fn form_kept(
    attribute: Attribute,
    name: &[u8],
    unit: &[u8],
    limits: Option<Limits>,
    most: u16,
) -> bool
    ensures { result ≡ form_kept attribute.0 name.now unit.now limits most }
{
    maximum_fits(attribute, most)
        && name.len() <= NAME_MOST
        && unit.len() <= UNIT_MOST
        && limits_kept(attribute, limits)
}
