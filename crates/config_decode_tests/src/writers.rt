//! Fields as they are written.
ghost use Rattle.std.specs.Prelude.{◌≤◌, ◌<◌, ◌^◌};

use proto_wire::Writer;
use std::alloc::{AllocError, Global};
use test_tools::{Refusal, Row, Tester, push_hex, unsigned};

/// Writes the fields of a row, and compares the bytes.
pub fn run_writer(alloc: Global, tester: &mut Tester, row: &Row<'_>) -> Result<(), AllocError> {
    let text = row.text(alloc, "written")?;
    let Some(wanted) = tester.bytes(text.as_str())? else {
        return Ok(());
    };
    tester.case();
    match written(alloc, row.word("put")) {
        Ok(bytes) => tester.same_bytes("written", wanted.as_slice(), bytes.as_slice()),
        Err(Refusal::Memory) => Err(AllocError),
        Err(Refusal::Word) => tester.differs("a field that isn't known", row.word("put")),
    }
}

/// The bytes of fields `varint:NUMBER:VALUE`, `fixed32:NUMBER:VALUE` or `bytes:NUMBER:HEX`.
fn written(alloc: Global, fields: &str) -> Result<Vec<u8>, Refusal> {
    let mut writer = Writer::new(alloc);
    for word in fields.split_whitespace() {
        let Some((kind, rest)) = word.split_once(':') else {
            return Err(Refusal::Word);
        };
        put_word(alloc, &mut writer, kind, rest)?;
    }
    Ok(writer.into_bytes())
}

fn put_word(alloc: Global, writer: &mut Writer, kind: &str, rest: &str) -> Result<(), Refusal> {
    let Some((digits, value)) = rest.split_once(':') else {
        return Err(Refusal::Word);
    };
    match number_of(digits) {
        Some(number) if 1 <= number && number < 536_870_912 => put(
            alloc, writer, kind, number, value,
        ),
        _ => Err(Refusal::Word),
    }
}

/// A number of 32 bits.
fn number_of(word: &str) -> Option<u32> {
    u32::try_from(unsigned(word)?).ok()
}

/// Puts a field of this number.
fn put(
    alloc: Global,
    writer: &mut Writer,
    kind: &str,
    number: u32,
    value: &str,
) -> Result<(), Refusal>
    requires named { 1 ≤ number }
    requires fits { number < 2 ^ 29 }
{
    match kind {
        "varint" => put_varint(writer, number, value),
        "fixed32" => put_fixed(writer, number, value),
        "bytes" => put_bytes(alloc, writer, number, value),
        _ => Err(Refusal::Word),
    }
}

fn put_varint(writer: &mut Writer, number: u32, value: &str) -> Result<(), Refusal>
    requires named { 1 ≤ number }
    requires fits { number < 2 ^ 29 }
{
    let Some(value) = unsigned(value) else {
        return Err(Refusal::Word);
    };
    writer.varint_field(number, value)?;
    Ok(())
}

fn put_fixed(writer: &mut Writer, number: u32, value: &str) -> Result<(), Refusal>
    requires named { 1 ≤ number }
    requires fits { number < 2 ^ 29 }
{
    let Some(value) = number_of(value) else {
        return Err(Refusal::Word);
    };
    writer.fixed32_field(number, value)?;
    Ok(())
}

fn put_bytes(alloc: Global, writer: &mut Writer, number: u32, hex: &str) -> Result<(), Refusal>
    requires named { 1 ≤ number }
    requires fits { number < 2 ^ 29 }
{
    let mut bytes = Vec::new(alloc);
    push_hex(&mut bytes, hex)?;
    writer.bytes_field(number, bytes.as_slice())?;
    Ok(())
}
