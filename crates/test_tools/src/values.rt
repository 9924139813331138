//! Fields of messages, as `name:value`.
use super::hex::push_hex;
use super::names::Names;
use super::numbers::{bits, push_varint};
use super::refusal::Refusal;
use std::alloc::Global;

/// The tag of a field with this wire type.
pub fn tag_of(number: u64, wire: u64) -> u64 {
    number.saturating_mul(8).saturating_add(wire)
}

/// A field as a word tells it: its number, and its name and value as text.
#[derive(Clone, Copy)]
pub struct FieldText<'a> {
    pub number: u64,
    pub name: &'a str,
    pub value: &'a str,
}

/// Puts a field with a value: `"text"` and `<hex>` have a length, `fixed<hex>` four or eight bytes, and all others are
/// numbers or names of numbers.
pub fn push_field(
    bytes: &mut Vec<u8>,
    alloc: Global,
    names: &Names,
    field: FieldText<'_>,
) -> Result<(), Refusal> {
    let FieldText {
        number,
        name,
        value,
    } = field;
    if let Some(text) = inside(value, "\"", "\"") {
        return push_text(bytes, number, text.as_bytes());
    }
    if let Some(hex) = inside(value, "<", ">") {
        return push_bytes(bytes, alloc, number, hex);
    }
    if let Some(hex) = inside(value, "fixed<", ">") {
        return push_fixed(bytes, number, hex);
    }
    let Some(word) = number_of(names, name, value) else {
        return Err(Refusal::Word);
    };
    push_varint(bytes, tag_of(number, 0))?;
    push_varint(bytes, word)?;
    Ok(())
}

/// What stands between two marks.
pub fn inside<'a>(word: &'a str, begin: &str, end: &str) -> Option<&'a str> {
    word.strip_prefix(begin)?.strip_suffix(end)
}

fn push_text(bytes: &mut Vec<u8>, number: u64, text: &[u8]) -> Result<(), Refusal> {
    push_varint(bytes, tag_of(number, 2))?;
    push_varint(bytes, text.len() as u64)?;
    bytes.extend_from_slice(text)?;
    Ok(())
}

fn push_bytes(bytes: &mut Vec<u8>, alloc: Global, number: u64, hex: &str) -> Result<(), Refusal> {
    let mut text = Vec::new(alloc);
    push_hex(&mut text, hex)?;
    push_text(bytes, number, text.as_slice())
}

fn push_fixed(bytes: &mut Vec<u8>, number: u64, hex: &str) -> Result<(), Refusal> {
    let wire = match hex.len() {
        8 => 5,
        16 => 1,
        _ => return Err(Refusal::Word),
    };
    push_varint(bytes, tag_of(number, wire))?;
    push_hex(bytes, hex)
}

/// The number that a value stands for.
fn number_of(names: &Names, name: &str, value: &str) -> Option<u64> {
    match value {
        "true" => Some(1),
        "false" => Some(0),
        _ => match bits(value) {
            Some(number) => Some(number),
            None => Some(names.field(name, value)?.number),
        },
    }
}
