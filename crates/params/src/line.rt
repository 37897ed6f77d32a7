// One line of a block: IDN, keeper, type and length, limits, data, validity, name and unit.
use crate::words::{keeper_word, length_words, type_word, valid_word};
use block::attribute::{Attribute, DataType};
use block::idn::Idn;
use block::limits::{Limits, value_of};
use block::value::pattern_of;
use block::view::View;
use std::alloc::{AllocError, Global};

// stays: texts by functions, since a text needs the attribute beside the data, and a Display for the pair would be a struct more for each.

// Bytes as text: what is not printable ASCII shows as a dot.
fn printable(heap: Global, bytes: &[u8]) -> Result<String, AllocError> {
    bytes
        .iter()
        .map(|b| match b {
            0x20..=0x7e => char::from(*b),
            _ => '.',
        })
        .collect(heap)
}

// One item as its type says: a number, a bit pattern or an IDN.
fn item_text(heap: Global, attribute: Attribute, pattern: u32) -> Result<String, AllocError> {
    match attribute.data_type() {
        Some(DataType::Binary | DataType::Hexadecimal) => format!(in heap; "0x{pattern:X}"),
        // stays: the low word by arithmetic, since the bytes of the pattern would be taken apart only to be joined again
        Some(DataType::IdnType) => {
            let idn = Idn((pattern % 0x1_0000) as u16);
            format!(in heap; "{idn}")
        }
        _ => {
            let value = value_of(attribute, pattern);
            format!(in heap; "{value}")
        }
    }
}

// The items of a list, between brackets.
fn list_text(
    heap: Global,
    attribute: Attribute,
    item: usize,
    bytes: &[u8],
) -> Result<String, AllocError> {
    let items = bytes
        .chunks(item.max(1))
        .map(|one| item_text(heap, attribute, pattern_of(one)));
    let mut text = String::from_str(heap, "[")?;
    for (i, shown) in items.enumerate() {
        if i > 0 {
            text.push(' ')?;
        }
        text.push_str(shown?.as_str())?;
    }
    text.push(']')?;
    Ok(text)
}

// The operation data as their attribute says.
pub fn data_text(heap: Global, attribute: Attribute, bytes: &[u8]) -> Result<String, AllocError> {
    if let Some(DataType::Text) = attribute.data_type() {
        let text = printable(heap, bytes)?;
        return format!(in heap; "\"{text}\"");
    }
    match attribute.length_code() {
        Some(code) if code.is_list() => list_text(heap, attribute, code.item(), bytes),
        _ => item_text(heap, attribute, pattern_of(bytes)),
    }
}

fn limits_text(
    heap: Global,
    attribute: Attribute,
    limits: Option<Limits>,
) -> Result<String, AllocError> {
    let Some(Limits { lower, upper }) = limits else {
        return String::from_str(heap, "no limits");
    };
    let least = value_of(attribute, lower);
    let most = value_of(attribute, upper);
    format!(in heap; "{least} to {most}")
}

// What kind of data they are: type and length, or a command.
fn form_text(heap: Global, attribute: Attribute) -> Result<String, AllocError> {
    let (Some(code), Some(kind)) = (attribute.length_code(), attribute.data_type()) else {
        return String::from_str(heap, "unknown");
    };
    if attribute.is_command() {
        return String::from_str(heap, "command");
    }
    let kind = type_word(kind);
    let length = length_words(code);
    format!(in heap; "{kind}, {length}")
}

pub fn line(heap: Global, view: View<'_>) -> Result<String, AllocError> {
    let idn = view.idn;
    let keeper = keeper_word(view.keeper);
    let form = form_text(heap, view.attribute)?;
    let limits = limits_text(heap, view.attribute, view.limits)?;
    let data = data_text(heap, view.attribute, view.content)?;
    let valid = valid_word(view.status);
    let name = printable(heap, view.name)?;
    let mut text = format!(in heap;
        "{idn}  {keeper:<7}  {form:<23}  {limits:<11}  {valid:<7}  {name}: {data}"
    )?;
    if !view.unit.is_empty() {
        let unit = printable(heap, view.unit)?;
        text.push(' ')?;
        text.push_str(unit.as_str())?;
    }
    Ok(text)
}
