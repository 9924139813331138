//! Fields of messages as texts.
use proto_wire::{Body, Field};
use std::alloc::AllocError;
use test_tools::push_hex_text;

/// Puts a field after others: its number, where it and its payload begin, and what it holds.
pub fn push_field(text: &mut String, field: &Field<'_>) -> Result<(), AllocError> {
    let (number, at, payload_at) = (field.number, field.at, field.payload_at);
    if !text.is_empty() {
        text.push_str("; ")?;
    }
    write!(text, "{number} at {at} {payload_at} ")?;
    push_body(text, &field.body)
}

fn push_body(text: &mut String, body: &Body<'_>) -> Result<(), AllocError> {
    match body {
        Body::Varint(number) => write!(text, "varint {number}"),
        Body::Fixed32(number) => write!(text, "fixed32 {number}"),
        Body::Fixed64(number) => write!(text, "fixed64 {number}"),
        Body::Bytes(bytes) => push_hex_body(text, "bytes ", bytes),
        Body::Group(bytes) => push_hex_body(text, "group ", bytes),
    }
}

fn push_hex_body(text: &mut String, kind: &str, bytes: &[u8]) -> Result<(), AllocError> {
    text.push_str(kind)?;
    push_hex_text(text, bytes)
}
