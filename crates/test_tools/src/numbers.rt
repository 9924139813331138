//! Numbers as words.
use super::refusal::Refusal;
use std::alloc::AllocError;

/// The endings of a number that counts nanoseconds, and how many each stands for. Longer endings stand first.
const UNITS: &[(&str, u64)] = &[
    ("ns", 1),
    ("us", 1_000),
    ("ms", 1_000_000),
    ("s", 1_000_000_000),
    ("m", 60_000_000_000),
    ("h", 3_600_000_000_000),
];

/// The number of a word, which may end in a unit.
pub fn unsigned(word: &str) -> Option<u64> {
    let (digits, nanos) = in_units(word);
    digits.parse::<u64>().ok()?.checked_mul(nanos)
}

/// The digits of a number, and what each of its ones stands for.
fn in_units(word: &str) -> (&str, u64) {
    for &(unit, nanos) in UNITS {
        if let Some(digits) = word.strip_suffix(unit) {
            return (digits, nanos);
        }
    }
    (word, 1)
}

/// The number of a word, which may be below 0.
pub fn signed(word: &str) -> Option<i64> {
    word.parse::<i64>().ok()
}

/// The 64 bits of a number, in two's complement where it is below 0.
pub fn bits(word: &str) -> Option<u64> {
    if let Some(number) = unsigned(word) {
        return Some(number);
    }
    Some(u64::from_le_bytes(signed(word)?.to_le_bytes()))
}

/// Puts a byte after others.
pub fn push_byte(bytes: &mut Vec<u8>, byte: u8) -> Result<(), AllocError> {
    bytes.push(byte)?;
    Ok(())
}

/// Puts a number as a varint.
pub fn push_varint(bytes: &mut Vec<u8>, number: u64) -> Result<(), AllocError> {
    let mut left = number;
    for _ in 0..9 {
        if left < 128 {
            break;
        }
        push_byte(bytes, (left & 127) as u8 | 128)?;
        left >>= 7;
    }
    push_byte(bytes, (left & 127) as u8)
}

/// The types of numbers, how many bytes each has, and one more than its greatest number. The last one has any.
const TYPES: &[(&str, usize, u64)] = &[
    ("u8", 1, 1 << 8),
    ("u16", 2, 1 << 16),
    ("u32", 4, 1 << 32),
    ("i32", 4, 1 << 32),
];

/// Puts a number of this type, with its low byte first.
pub fn push_number(bytes: &mut Vec<u8>, kind: &str, word: &str) -> Result<(), Refusal> {
    let Some(number) = bits(word) else {
        return Err(Refusal::Word);
    };
    match kind {
        "varint" => push_varint(bytes, number)?,
        "u64" | "i64" => bytes.extend_from_slice(&number.to_le_bytes())?,
        _ => push_narrow(bytes, kind, number)?,
    }
    Ok(())
}

/// Puts a number of fewer than 64 bits.
fn push_narrow(bytes: &mut Vec<u8>, kind: &str, number: u64) -> Result<(), Refusal> {
    for &(name, len, end) in TYPES {
        if name == kind && fits(number, end) {
            push_low(bytes, number, len)?;
            return Ok(());
        }
    }
    Err(Refusal::Word)
}

/// Whether the bits of a number are those of one below this end, or of one above its half below 0.
fn fits(number: u64, end: u64) -> bool {
    number < end || number.wrapping_add(end / 2) < end / 2
}

/// Puts the low bytes of a number.
pub fn push_low(bytes: &mut Vec<u8>, number: u64, len: usize) -> Result<(), AllocError> {
    let all = number.to_le_bytes();
    bytes.extend_from_slice(all.get(..len).unwrap_or(&all))
}
