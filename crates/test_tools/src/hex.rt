//! Bytes as hex.
use super::numbers::push_byte;
use super::refusal::Refusal;
use std::alloc::AllocError;

/// Puts the bytes that pairs of hex digits spell after others. A `_` may stand between two bytes.
pub fn push_hex(bytes: &mut Vec<u8>, hex: &str) -> Result<(), Refusal> {
    let mut high = None;
    for code in hex.bytes() {
        match (digit(code), high) {
            (Some(low), Some(first)) => {
                push_byte(bytes, (first & 15) << 4 | low)?;
                high = None;
            }
            (Some(first), None) => high = Some(first),
            (None, None) if code == b'_' => {}
            _ => return Err(Refusal::Word),
        }
    }
    match high {
        None => Ok(()),
        Some(_) => Err(Refusal::Word),
    }
}

/// The value of a hex digit.
fn digit(code: u8) -> Option<u8> {
    match code {
        b'0'..=b'9' => Some(code - b'0'),
        b'a'..=b'f' => Some(code - b'a' + 10),
        _ => None,
    }
}

/// Puts the hex digits of bytes after a text.
pub fn push_hex_text(text: &mut String, bytes: &[u8]) -> Result<(), AllocError> {
    for byte in bytes {
        write!(text, "{byte:02x}")?;
    }
    Ok(())
}
