//! The fields of a message, one after the other. What isn't there, or isn't of its type, is 0 or empty.
ghost use Rattle.std.specs.Prelude.{◌≡◌, ℕ, ◌<◌, ◌^◌, ◌++◌, List, [], length, map, drop, IfOk, IfSome, OnOk};
ghost use Rattle.proto_wire.specs.Fields.{body_view, inside_of};
ghost use Rattle.report_show.specs.Reading as reading;
ghost use Rattle.report_show.specs.Reading.{contents_left, contents_in, payload_under};
ghost use Rattle.report_show.specs.Steps.{content_of, TakesContent};

use proto_wire::{Body, Field, Records};
use sd_base::Seq;
use std::alloc::{AllocError, Global};

/// The next field, or none at the end or where none can be read.
pub fn next_field<'a>(records: &mut Records<'a>) -> Option<Field<'a>>
    ensures taken { TakesContent (contents_left records.old) result (contents_left records.new) }
    ensures short { IfSome result (λ field. length (inside_of (body_view field.body)) < 2 ^ 32) }
    ensures less { IfSome result (λ field. length records.new.bytes < length records.old.bytes) }
{
    match records.next() {
        Ok(field) => field,
        Err(_) => None,
    }
}

/// The low 32 bits.
pub fn low_half(number: u64) -> u32
    ensures { result ≡ reading.low32 number }
{
    (number % (1 << 32)) as u32
}

/// The number that a field holds.
pub fn number_of(body: Body<'_>) -> u64
    ensures { result ≡ reading.held_number (body_view body.entry) }
{
    match body {
        Body::Varint(number) => number,
        _ => 0,
    }
}

/// The bytes that a field holds.
pub fn bytes_of<'a>(body: Body<'a>) -> &'a [u8]
    ensures bytes { result.now ≡ reading.held_bytes (body_view body.entry) }
{
    match body {
        Body::Bytes(bytes) => bytes,
        _ => &[],
    }
}

/// The four bytes that a field holds.
pub fn bits_of(body: Body<'_>) -> u32
    ensures { result ≡ reading.held_bits (body_view body.entry) }
{
    match body {
        Body::Fixed32(bits) => bits,
        _ => 0,
    }
}

/// The number of the next field.
pub fn next_number(records: &mut Records<'_>) -> u64
    ensures number { result ≡ reading.leading_number (contents_left records.old) }
    ensures rest { contents_left records.new ≡ drop 1 (contents_left records.old) }
{
    match next_field(records) {
        Some(field) => number_of(field.body),
        None => 0,
    }
}

/// The number of the next field itself, and its bytes.
pub fn next_bytes<'a>(records: &mut Records<'a>) -> (u32, &'a [u8])
    ensures id { result.0 ≡ reading.leading_id (contents_left records.old) }
    ensures bytes { result.1.now ≡ reading.leading_bytes (contents_left records.old) }
    ensures short { length result.1.now < 2 ^ 32 }
    ensures rest { contents_left records.new ≡ drop 1 (contents_left records.old) }
{
    match next_field(records) {
        Some(field) => (field.number, bytes_of(field.body)),
        None => (0, &[]),
    }
}

/// The number of the first field of this number.
pub fn number_in(bytes: &[u8], number: u32) -> u64
    requires { length bytes.now < 2 ^ 32 }
    ensures { result ≡ reading.number_under number (contents_in bytes.now) }
{
    let mut records = Records::new(bytes, 0, 0);
    while let Some(field) = next_field(&mut records) {
        if field.number == number {
            return number_of(field.body);
        }
    }
    0
}

/// What is read of a message.
pub trait Said: Sized + Drop {
    ghost said: { List ℕ → Self };

    fn read(alloc: Global, bytes: &[u8]) -> Result<Self, AllocError>
        requires { length bytes.now < 2 ^ 32 }
        ensures { IfOk result (λ item. item ≡ said bytes.now) };
}

// Adds what a field says, if it is of this number.
fn add_said<T: Said>(
    alloc: Global,
    number: u32,
    field: &Field<'_>,
    items: &mut Seq<T>,
) -> Result<(), AllocError>
    requires { length (inside_of (body_view field.now.body)) < 2 ^ 32 }
    ensures { OnOk result (items.new
        ≡ items.old ++ map T.said (payload_under number (content_of field.now))) }
{
    if let Body::Bytes(bytes) = field.body
        && field.number == number
    {
        items.push(T::read(alloc, bytes)?)?;
    }
    Ok(())
}

/// What each message in a field of this number says.
pub fn read_all<T: Said>(alloc: Global, bytes: &[u8], number: u32) -> Result<Seq<T>, AllocError>
    requires { length bytes.now < 2 ^ 32 }
    ensures { IfOk result (λ items.
        items ≡ map T.said (reading.payloads_under number (contents_in bytes.now))) }
{
    let mut items = Seq::new(alloc);
    let mut records = Records::new(bytes, 0, 0);
    while let Some(field) = next_field(&mut records) {
        add_said(alloc, number, &field, &mut items)?;
    }
    Ok(items)
}
