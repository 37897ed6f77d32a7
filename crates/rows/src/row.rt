// One row of a table: what never changes of a block, and beside it what does.
ghost use Rattle.std.specs.Prelude.{◌≡◌};
ghost use Rattle.block.specs.Blocks.{length_fits};
ghost use Rattle.rows.specs.Rows.{area_of, row_kept};

use block::attribute::Attribute;
use block::idn::Idn;
use block::keeper::Keeper;
use block::limits::Limits;
use block::view::{form_kept, length_fits};

// stays: rows, states and bytes are three slices beside one another and no structs that own their data. The caller lends the
// memory, since a drive has a fixed one and no heap: rows are only read, as a static, states and bytes change.
#[derive(Clone, Copy)]
pub struct Row<'r> {
    pub idn: Idn,
    pub keeper: Keeper,
    pub name: &'r [u8],
    pub attribute: Attribute,
    pub unit: &'r [u8],
    pub limits: Option<Limits>,
    pub most: u16,
    // the first byte of the data area
    pub start: usize,
}

// The data status of a block, and how many bytes its data have now.
#[derive(Clone, Copy, PartialEq, Eq, Debug)]
pub struct State {
    pub status: u16,
    pub length: u16,
}

impl Row<'_> {
    // The bytes of the data area.
    pub(crate) fn area(&self) -> usize
        ensures { result ≡ area_of self.now }
    {
        match self.attribute.length_code() {
            Some(code) if code.is_list() => usize::from(self.most),
            Some(code) => code.item(),
            None => 0,
        }
    }

    pub(crate) fn keeps_rules(&self) -> bool
        ensures { result ≡ row_kept self.now }
    {
        form_kept(self.attribute, self.name, self.unit, self.limits, self.most)
    }

    // Whether n bytes are a possible length of the data.
    pub(crate) fn fits(&self, n: usize) -> bool
        ensures { result ≡ length_fits self.now.attribute.0 self.now.most n }
    {
        length_fits(self.attribute, self.most, n)
    }
}
