//! Entries of atoms, as `FIELD[INDEX].SUB=TYPE:VALUE,FLAG`.
use super::hex::push_hex;
use super::numbers::{push_low, push_number};
use super::refusal::Refusal;
use super::values::inside;
use std::alloc::{AllocError, Global};

/// Whether a word begins as an entry does.
pub fn is_entry(word: &str) -> bool {
    match word.as_bytes().first() {
        Some(code) => code.is_ascii_digit(),
        None => false,
    }
}

/// The types of values, their codes, and the types of number that they have. A text has none.
const TYPES: &[(&str, u64, &str)] = &[
    ("int", 1, "i32"),
    ("long", 2, "i64"),
    ("bool", 3, "u8"),
    ("str", 4, ""),
    ("raw", 5, ""),
    ("bits", 6, "u32"),
];

/// The flags, and their sums.
const FLAGS: &[(&str, u64)] = &[
    ("", 0),
    ("exclusive", 1),
    ("primary", 2),
    ("exclusive,primary", 3),
    ("reset", 4),
    ("exclusive,reset", 5),
    ("primary,reset", 6),
    ("exclusive,primary,reset", 7),
];

/// Puts the bytes of an entry.
pub fn push_entry(bytes: &mut Vec<u8>, alloc: Global, word: &str) -> Result<(), Refusal> {
    let Some((place, kind, value, flags)) = parts_of(word) else {
        return Err(Refusal::Word);
    };
    push_place(bytes, place)?;
    push_low(bytes, flags, 1)?;
    push_value(bytes, alloc, kind, value)
}

/// The place of an entry, the name of its type, its value and the sum of its flags.
fn parts_of(word: &str) -> Option<(&str, &str, &str, u64)> {
    let (place, rest) = word.split_once('=')?;
    let (meant, flags) = rest.split_once(',').unwrap_or((rest, ""));
    let (kind, value) = meant.split_once(':')?;
    Some((place, kind, value, flags_of(flags)?))
}

/// The sum of flags.
fn flags_of(words: &str) -> Option<u64> {
    for &(name, sum) in FLAGS {
        if name == words {
            return Some(sum);
        }
    }
    None
}

/// Puts a field, an index and a sub.
fn push_place(bytes: &mut Vec<u8>, place: &str) -> Result<(), Refusal> {
    let (first, sub) = place.split_once('.').unwrap_or((place, "0"));
    let (field, index) = first.split_once('[').unwrap_or((first, "0]"));
    let index = if index == "0]" {
        "0"
    } else {
        index.strip_suffix(']').unwrap_or("")
    };
    push_number(bytes, "u8", field)?;
    push_number(bytes, "u8", index)?;
    push_number(bytes, "u8", sub)
}

/// Puts a type and a value of it.
fn push_value(bytes: &mut Vec<u8>, alloc: Global, kind: &str, value: &str) -> Result<(), Refusal> {
    for &(name, code, number) in TYPES {
        if name == kind {
            push_low(bytes, code, 1)?;
            return push_typed(bytes, alloc, number, value);
        }
    }
    Err(Refusal::Word)
}

fn push_typed(
    bytes: &mut Vec<u8>,
    alloc: Global,
    number: &str,
    value: &str,
) -> Result<(), Refusal> {
    if number.is_empty() {
        return push_long(bytes, alloc, value);
    }
    match value {
        "false" => push_number(bytes, number, "0"),
        "true" => push_number(bytes, number, "1"),
        _ => push_number(bytes, number, value),
    }
}

/// Puts a length of two bytes and these bytes: `"text"`, `<hex>` or `<hex>*TIMES`.
fn push_long(bytes: &mut Vec<u8>, alloc: Global, value: &str) -> Result<(), Refusal> {
    if let Some(text) = inside(value, "\"", "\"") {
        return push_with_length(bytes, text.as_bytes());
    }
    let mut inner = Vec::new(alloc);
    push_repeated(&mut inner, alloc, value)?;
    push_with_length(bytes, inner.as_slice())
}

fn push_with_length(bytes: &mut Vec<u8>, inner: &[u8]) -> Result<(), Refusal> {
    push_low(bytes, inner.len() as u64, 2)?;
    bytes.extend_from_slice(inner)?;
    Ok(())
}

/// Puts the bytes of `<hex>` or `<hex>*TIMES`.
pub fn push_repeated(bytes: &mut Vec<u8>, alloc: Global, word: &str) -> Result<(), Refusal> {
    let Some((hex, times)) = repeated(word) else {
        return Err(Refusal::Word);
    };
    let mut once = Vec::new(alloc);
    push_hex(&mut once, hex)?;
    push_times(bytes, once.as_slice(), times)?;
    Ok(())
}

/// Hex, and how often it stands.
fn repeated(word: &str) -> Option<(&str, u64)> {
    let (marked, digits) = word.split_once('*').unwrap_or((word, "1"));
    Some((inside(marked, "<", ">")?, digits.parse::<u64>().ok()?))
}

fn push_times(bytes: &mut Vec<u8>, once: &[u8], times: u64) -> Result<(), AllocError> {
    for _ in 0..times {
        bytes.extend_from_slice(once)?;
    }
    Ok(())
}
