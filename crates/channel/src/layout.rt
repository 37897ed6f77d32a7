// How an element of a block is read word by word.
ghost use Rattle.std.specs.Prelude.{◌≡◌, ◌+◌, ◌-◌, ◌*◌, Some, slice_index};
ghost use Rattle.std.specs.Option.{option_map};
ghost use Rattle.block.specs.Blocks.{seen};
ghost use Rattle.block.specs.Numbers.{word};
ghost use Rattle.block.specs.Values.{ok_unless};
ghost use Rattle.channel.specs.Controls.{element_number};
ghost use Rattle.channel.specs.Layouts.{plain, text_shape, content_shape, shape_of, word_count, word_at, read_fault, fixed_words};
ghost use Rattle.channel.specs.Shapes.{shape};

use crate::code::Digit;
use crate::control::Element;
use block::attribute::{Attribute, LengthCode};
use block::value::{pattern_of, word_at};
use block::view::{NAME_MOST, UNIT_MOST, View};
use std::cmp::Ordering;

// Plain words of one bit pattern, or byte count, maximum and bytes.
// stays: an enum of its own, since both are ways to lie in words, and neither is the lack or the failure of the other.
#[derive(Clone, Copy, PartialEq, Eq, Debug)]
pub enum Layout<'v> {
    Plain { words: u16, pattern: u32 },
    Headed { most: u16, bytes: &'v [u8] },
}

// The words of fixed data and of limits.
// stays: a match of its own, as the number of bit patterns in block has one: told by one another, both would be longer.
pub fn fixed_words(attribute: Attribute) -> u16
    ensures { result ≡ fixed_words attribute.0 }
{
    match attribute.length_code() {
        Some(LengthCode::TwoBytes) => 1,
        _ => 2,
    }
}

// A text that is not empty.
fn text_layout<'v>(most: u16, bytes: &'v [u8]) -> Option<Layout<'v>>
    ensures { option_map shape result ≡ text_shape most bytes.now }
{
    (!bytes.is_empty()).then_some(Layout::Headed { most, bytes })
}

// Fixed data or a limit.
fn plain_layout<'v>(attribute: Attribute, pattern: u32) -> Layout<'v>
    ensures { shape result ≡ plain (fixed_words attribute.0) pattern }
{
    let words = fixed_words(attribute);
    Layout::Plain { words, pattern }
}

fn content_layout<'v>(attribute: Attribute, most: u16, bytes: &'v [u8]) -> Layout<'v>
    ensures { shape result ≡ content_shape attribute.0 most bytes.now }
{
    if attribute.is_list() {
        Layout::Headed { most, bytes }
    } else {
        plain_layout(attribute, pattern_of(bytes))
    }
}

// The layout of elements 2 to 7 of a block, or nothing where the element is missing.
pub fn layout_of<'v>(view: View<'v>, element: Element) -> Option<Layout<'v>>
    ensures { option_map shape result ≡ shape_of (seen view.entry) (element_number element) }
{
    match element {
        Element::Name => text_layout(NAME_MOST as u16, view.name),
        Element::Attribute => Some(Layout::Plain {
            words: 2,
            pattern: view.attribute.0,
        }),
        Element::Unit => text_layout(UNIT_MOST as u16, view.unit),
        Element::Lower => Some(plain_layout(view.attribute, view.limits?.lower)),
        Element::Upper => Some(plain_layout(view.attribute, view.limits?.upper)),
        Element::Content | Element::Closing | Element::Number => Some(content_layout(
            view.attribute,
            view.most,
            view.content,
        )),
    }
}

impl Layout<'_> {
    pub fn word_count(&self) -> usize
        ensures { result ≡ word_count (shape self.now) }
    {
        match self {
            Layout::Plain { words, .. } => usize::from(*words),
            Layout::Headed { bytes, .. } => 2 + bytes.len().div_ceil(2),
        }
    }

    // Word k, counted from 1.
    pub fn word_at(&self, k: usize) -> u16
        ensures { result ≡ word_at (shape self.now) k }
    {
        // stays: low and high word by arithmetic, since to_le_bytes would take a pattern apart only to join its bytes again
        match (self, k) {
            (Layout::Plain { pattern, .. }, 1) => (*pattern % 0x1_0000) as u16,
            (Layout::Plain { pattern, .. }, _) => (*pattern / 0x1_0000) as u16,
            (Layout::Headed { bytes, .. }, 1) => (bytes.len() % 0x1_0000) as u16,
            (Layout::Headed { most, .. }, 2) => *most,
            (Layout::Headed { bytes, .. }, _) => word_in(bytes, k),
        }
    }
}

// Word k of a headed element: the bytes begin at word 3.
fn word_in(bytes: &[u8], k: usize) -> u16
    ensures { result ≡ word (slice_index bytes.now (2 * (k - 3))) (slice_index bytes.now (2 * (k - 3) + 1)) }
{
    word_at(bytes, k.saturating_sub(3).saturating_mul(2))
}

// Reading word k of so many words: it fails past the end, and where "last" comes too early.
pub fn check_read(words: usize, k: usize, last: bool) -> Result<(), Digit>
    ensures { result ≡ ok_unless (read_fault words k last) }
{
    match k.cmp(&words) {
        Ordering::Greater => Err(Digit::Late),
        Ordering::Less if last => Err(Digit::Early),
        _ => Ok(()),
    }
}
