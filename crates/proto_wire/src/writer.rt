//! A writer of fields in their shortest spelling.
ghost use Rattle.std.specs.Prelude.{◌≡◌, ◌+◌, ◌-◌, ◌<◌, ◌≤◌, ◌^◌, [], ◌++◌, length, drop, IfOk, OnOk, OnErr, vec_len, vec_capacity};
ghost use Rattle.proto_wire.specs.Spelling.{varint, with_varint_at, tag_bytes, varint_field, bytes_field, begun_field, fixed32_field};

use crate::tag::WireType;
use std::alloc::{AllocError, Global};
use std::marker::Model;

// The room that a tag and a number may take.
const FIELD_ROOM: usize = 20;

/// The bytes of a message, field by field. Contracts see the bytes.
#[derive(Drop)]
pub struct Writer {
    bytes: Vec<u8>,
}

impl Model for Writer {
    ghost use Rattle.std.specs.Prelude.{ℕ, List};

    ghost Value = { List ℕ };

    ghost view = { λ w. w.bytes.items };
}

impl Writer {
    /// A message without fields. It takes no memory yet.
    pub fn new(alloc: Global) -> Writer
        ensures { result ≡ [] }
    {
        Writer {
            bytes: Vec::new(alloc),
        }
    }

    /// A message without fields, with room for so many bytes.
    pub fn with_capacity(alloc: Global, room: usize) -> Result<Writer, AllocError>
        ensures { IfOk result (λ writer. writer ≡ []) }
    {
        let bytes = Vec::with_capacity(alloc, room)?;
        Ok(Writer { bytes })
    }

    /// Adds a field of wire type 0. A negative number is given as the 64 bits of its two's complement.
    pub fn varint_field(&mut self, number: u32, v: u64) -> Result<(), AllocError>
        requires named { 1 ≤ number }
        requires fits { number < 2 ^ 29 }
        ensures field { OnOk result (self.new ≡ self.old ++ varint_field number v) }
        ensures err { OnErr result (self.new ≡ self.old) }
    {
        self.bytes.reserve(FIELD_ROOM)?;
        put_tag(&mut self.bytes, number, WireType::Varint);
        put_varint(&mut self.bytes, v);
        Ok(())
    }

    /// Adds a field of wire type 2.
    pub fn bytes_field(&mut self, number: u32, bytes: &[u8]) -> Result<(), AllocError>
        requires named { 1 ≤ number }
        requires fits { number < 2 ^ 29 }
        ensures field { OnOk result (self.new ≡ self.old ++ bytes_field number bytes.now) }
        ensures err { OnErr result (self.new ≡ self.old) }
    {
        self.bytes.reserve(bytes.len().saturating_add(FIELD_ROOM))?;
        put_tag(&mut self.bytes, number, WireType::Bytes);
        put_varint(&mut self.bytes, bytes.len() as u64);
        self.bytes.extend_from_slice(bytes)
    }

    /// Adds a field of wire type 5.
    pub fn fixed32_field(&mut self, number: u32, v: u32) -> Result<(), AllocError>
        requires named { 1 ≤ number }
        requires fits { number < 2 ^ 29 }
        ensures field { OnOk result (self.new ≡ self.old ++ fixed32_field number v) }
        ensures err { OnErr result (self.new ≡ self.old) }
    {
        self.bytes.reserve(FIELD_ROOM)?;
        put_tag(&mut self.bytes, number, WireType::Fixed32);
        self.bytes.extend_from_slice(&v.to_le_bytes())
    }

    /// Begins a field of wire type 2, which holds what is added until it is ended. The answer is the place where the
    /// count of its bytes goes.
    pub fn begin_field(&mut self, number: u32) -> Result<usize, AllocError>
        requires named { 1 ≤ number }
        requires fits { number < 2 ^ 29 }
        ensures begun { OnOk result (self.new ≡ self.old ++ begun_field number) }
        ensures place { IfOk result (λ place. place + 1 ≡ length self.new) }
        ensures err { OnErr result (self.new ≡ self.old) }
    {
        self.bytes.reserve(FIELD_ROOM)?;
        put_tag(&mut self.bytes, number, WireType::Bytes);
        let place = self.bytes.len();
        self.bytes.push_reserved(0);
        Ok(place)
    }

    /// Ends the field whose count goes to this place: it holds all that is after it. After want of memory a part of the
    /// count may stand there.
    pub fn end_field(&mut self, place: usize) -> Result<(), AllocError>
        requires begun { place < length self.old }
        ensures counted { OnOk result (self.new
            ≡ with_varint_at place (length (drop (place + 1) self.old)) self.old) }
    {
        let count = self.bytes.len() - place - 1;
        put_varint_at(&mut self.bytes, place, count as u64)
    }

    /// The bytes written.
    pub fn into_bytes(self) -> Vec<u8>
        ensures { result.items ≡ self }
    {
        self.bytes
    }
}

// Adds a varint, for which there is room.
fn put_varint(out: &mut Vec<u8>, value: u64)
    requires room { vec_len out.old + 10 ≤ vec_capacity out.old }
    ensures spelled { out.new.items ≡ out.old.items ++ varint value }
    ensures len { vec_len out.new ≤ vec_len out.old + 10 }
    ensures capacity { vec_capacity out.new ≡ vec_capacity out.old }
{
    let mut rest = value;
    while rest >= 128 {
        out.push_reserved((rest % 128 + 128) as u8);
        rest /= 128;
    }
    out.push_reserved(rest as u8);
}

// Puts a varint in place of the byte that stands there.
fn put_varint_at(bytes: &mut Vec<u8>, place: usize, value: u64) -> Result<(), AllocError>
    requires { place < vec_len bytes.old }
    ensures { OnOk result (bytes.new.items ≡ with_varint_at place value bytes.old.items) }
{
    let mut at = place;
    let mut rest = value;
    while rest >= 128 {
        bytes.insert(at, (rest % 128 + 128) as u8)?;
        at += 1;
        rest /= 128;
    }
    bytes[at] = rest as u8;
    Ok(())
}

fn put_tag(out: &mut Vec<u8>, number: u32, wire_type: WireType)
    requires fits { number < 2 ^ 29 }
    requires room { vec_len out.old + 10 ≤ vec_capacity out.old }
    ensures spelled { out.new.items ≡ out.old.items ++ tag_bytes number wire_type }
    ensures len { vec_len out.new ≤ vec_len out.old + 10 }
    ensures capacity { vec_capacity out.new ≡ vec_capacity out.old }
{
    put_varint(out, u64::from(number) * 8 + u64::from(wire_type.code()));
}
