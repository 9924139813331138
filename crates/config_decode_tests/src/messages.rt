//! Messages, the fields that they have, and their first faults.
use super::fields::push_field;
use super::texts::wire_text;
use proto_wire::{Body, Field, Records, WireFault, varint_of};
use std::alloc::{AllocError, Global};
use test_tools::{Row, Tester, unsigned};

/// The most bytes of a message.
const MAX_INPUT: usize = 1_000;

/// The depth of a message, which is 0 where a row doesn't say so.
fn depth_of(row: &Row<'_>, mark: &str) -> Option<u32> {
    match row.line(mark) {
        Some(word) => u32::try_from(unsigned(word)?).ok(),
        None => Some(0),
    }
}

/// The bytes of a mark.
fn bytes_at(
    alloc: Global,
    tester: &mut Tester,
    row: &Row<'_>,
    mark: &str,
) -> Result<Option<Vec<u8>>, AllocError> {
    let text = row.text(alloc, mark)?;
    tester.bytes(text.as_str())
}

/// Reads the message of a row to its end, and compares its fault, and its fields where the row tells them.
pub fn run_message(alloc: Global, tester: &mut Tester, row: &Row<'_>) -> Result<(), AllocError> {
    let Some(bytes) = bytes_at(alloc, tester, row, "message")? else {
        return Ok(());
    };
    if row.has("entered") {
        return run_entered(alloc, tester, row, bytes.as_slice());
    }
    run_bytes(alloc, tester, row, bytes.as_slice())
}

fn run_bytes(
    alloc: Global,
    tester: &mut Tester,
    row: &Row<'_>,
    bytes: &[u8],
) -> Result<(), AllocError> {
    let Some(depth) = depth_of(row, "depth") else {
        return tester.differs("no depth", row.word("depth"));
    };
    if depth > 100 || bytes.len() > MAX_INPUT {
        return tester.differs("too deep or too long", "");
    }
    let mut records = Records::new(bytes, depth, 0);
    compare_records(alloc, tester, row, &mut records)
}

/// Enters the message of a row, as the payload of a field at byte 7, from this depth.
fn run_entered(
    alloc: Global,
    tester: &mut Tester,
    row: &Row<'_>,
    bytes: &[u8],
) -> Result<(), AllocError> {
    let Some(depth) = depth_of(row, "entered") else {
        return tester.differs("no depth", row.word("entered"));
    };
    if depth > 100 || bytes.len() > MAX_INPUT {
        return tester.differs("too deep or too long", "");
    }
    let field = Field {
        number: 1,
        at: 7,
        payload_at: 9,
        body: Body::Bytes(bytes),
    };
    match Records::new(b"", depth, 0).enter(&field) {
        Ok(mut inside) => compare_records(alloc, tester, row, &mut inside),
        Err(fault) => compare_fault(alloc, tester, row, Some(fault)),
    }
}

/// Reads records to the end or to a fault, and compares.
fn compare_records(
    alloc: Global,
    tester: &mut Tester,
    row: &Row<'_>,
    records: &mut Records<'_>,
) -> Result<(), AllocError> {
    let mut text = String::new(alloc);
    let fault = push_fields(&mut text, records)?;
    compare_fault(alloc, tester, row, fault)?;
    if !row.has("fields") {
        return Ok(());
    }
    let wanted = row.text(alloc, "fields")?;
    tester.same_text("fields", wanted.as_str().trim(), text.as_str())
}

/// Puts the fields of records, and gives their fault. A record has a byte at least.
fn push_fields(
    text: &mut String,
    records: &mut Records<'_>,
) -> Result<Option<WireFault>, AllocError> {
    for _turn in 0..=MAX_INPUT {
        match records.next() {
            Ok(Some(field)) => push_field(text, &field)?,
            Ok(None) => return Ok(None),
            Err(fault) => return Ok(Some(fault)),
        }
    }
    Ok(None)
}

/// Compares a fault with that of a row.
fn compare_fault(
    alloc: Global,
    tester: &mut Tester,
    row: &Row<'_>,
    fault: Option<WireFault>,
) -> Result<(), AllocError> {
    tester.case();
    let found = match fault {
        Some(fault) => wire_text(alloc, "", fault.offset, fault.cause)?,
        None => String::new(alloc),
    };
    tester.same_text("fault", row.word("fault"), found.as_str())
}

/// Reads the first number of a packed payload, whose field is at byte 5.
pub fn run_varints(alloc: Global, tester: &mut Tester, row: &Row<'_>) -> Result<(), AllocError> {
    let Some(bytes) = bytes_at(alloc, tester, row, "varints")? else {
        return Ok(());
    };
    match varint_of(5, bytes.as_slice()) {
        Ok((number, rest)) => compare_number(alloc, tester, row, number, rest),
        Err(fault) => compare_fault(alloc, tester, row, Some(fault)),
    }
}

fn compare_number(
    alloc: Global,
    tester: &mut Tester,
    row: &Row<'_>,
    number: u64,
    rest: &[u8],
) -> Result<(), AllocError> {
    compare_fault(alloc, tester, row, None)?;
    let Some(wanted) = unsigned(row.word("number")) else {
        return tester.differs("no number", row.word("number"));
    };
    tester.same_number("number", wanted, number)?;
    match bytes_at(alloc, tester, row, "rest")? {
        Some(after) => tester.same_bytes("rest", after.as_slice(), rest),
        None => Ok(()),
    }
}

/// The fault that a row tells by its place and its cause.
fn fault_of(text: &str) -> Option<WireFault> {
    let (offset, cause) = text.split_once(' ')?;
    Some(WireFault {
        offset: u32::try_from(unsigned(offset)?).ok()?,
        cause: u8::try_from(unsigned(cause)?).ok()?,
    })
}

/// Compares what is printed of a fault.
pub fn run_fault(alloc: Global, tester: &mut Tester, row: &Row<'_>) -> Result<(), AllocError> {
    let Some(fault) = fault_of(row.word("of")) else {
        return tester.differs("a fault that isn't known", row.word("of"));
    };
    tester.case();
    let printed = format!(in alloc; "{fault}")?;
    tester.same_text("text", row.word("text"), printed.as_str())
}
