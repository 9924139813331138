//! An atom as the message that a report shows.
ghost use Rattle.std.specs.Prelude.{◌≡◌, ◌≤◌, ◌<◌, ◌∷◌, ◌++◌, ℕ, None, All, IfOk, OnOk, IsTrue};
ghost use Rattle.std.specs.Option.{option_copied};
ghost use Rattle.atom_record.specs.AtomSound.{HasNoFault, IsEntry};
ghost use Rattle.report_writer.specs.AtomMessage as shown;
ghost use Rattle.report_writer.specs.AtomMessage.{NeverFall};
ghost use Rattle.report_writer.specs.Writable.{IsWritableAtom};

use crate::numbers::GREATEST_FIELD_NUMBER;
use crate::rows::put_part;
use crate::tree::{AtomMsg, Part, PartBody};
use atom_record::{Atom, AtomField, Value};
use proto_wire::Writer;
use sd_base::{Duplicate, Seq};
use std::alloc::{AllocError, Global};

// What a field holds for a value.
fn make_body(alloc: Global, value: &Value) -> Result<PartBody, AllocError>
    ensures { IfOk result (λ body. body ≡ shown.part_body value.now) }
{
    match value {
        Value::Int(value) => Ok(PartBody::Num(i64::from(*value).cast_unsigned())),
        Value::Long(value) => Ok(PartBody::Num(value.cast_unsigned())),
        Value::Bool(value) => Ok(PartBody::Num(u64::from(*value))),
        Value::Str(text) => Ok(PartBody::Chunk(text.duplicate(alloc)?)),
        Value::Raw(bytes) => Ok(PartBody::Chunk(bytes.duplicate(alloc)?)),
        Value::Bits32(bits) => Ok(PartBody::Bits(*bits)),
    }
}

// Whether an entry stands in a message, and in the same as one that stands in a message.
fn shares_message(first: &AtomField, entry: &AtomField) -> bool
    ensures { result ≡ shown.is_beside first.now entry.now }
{
    entry.sub > 0 && entry.field == first.field && entry.index == first.index
}

// Adds an entry of a message.
fn put_sub(alloc: Global, out: &mut Writer, entry: &AtomField) -> Result<(), AllocError>
    requires { 0 < entry.now.sub }
    ensures { OnOk result (out.new ≡ out.old ++ shown.sub_field entry.now) }
{
    let body = make_body(alloc, &entry.value)?;
    put_part(out, u32::from(entry.sub), &body)
}

// Adds the entries from the front on that stand in the same message.
fn put_beside(
    alloc: Global,
    out: &mut Writer,
    first: &AtomField,
    after: &[AtomField],
) -> Result<(), AllocError>
    ensures { OnOk result (out.new ≡ out.old ++ shown.fields_beside first.now after.now) }
{
    let mut rest = after;
    while let Some((entry, others)) = rest.split_first() {
        if !shares_message(first, entry) {
            return Ok(());
        }
        put_sub(alloc, out, entry)?;
        rest = others;
    }
    Ok(())
}

// The message that begins with an entry, before these.
fn write_subs(alloc: Global, entry: &AtomField, after: &[AtomField]) -> Result<Vec<u8>, AllocError>
    requires { 0 < entry.now.sub }
    ensures { IfOk result (λ bytes. bytes.items ≡ shown.subs_message entry.now after.now) }
{
    let mut message = Writer::new(alloc);
    put_sub(alloc, &mut message, entry)?;
    put_beside(alloc, &mut message, entry, after)?;
    Ok(message.into_bytes())
}

// A number as the number of a field. That of an atom that has no fault is from 1 on.
fn as_field_number(number: u32) -> u32
    ensures { result ≡ shown.as_field_number number }
{
    number.min(GREATEST_FIELD_NUMBER).max(1)
}

// The field that begins with an entry, before these.
fn make_part(alloc: Global, entry: &AtomField, after: &[AtomField]) -> Result<Part, AllocError>
    ensures { IfOk result (λ part. part ≡ shown.part_at entry.now after.now) }
{
    let number = as_field_number(u32::from(entry.field));
    if entry.sub > 0 {
        let message = write_subs(alloc, entry, after)?;
        let body = PartBody::Chunk(Seq::from_vec(message));
        return Ok(Part { number, body });
    }
    let body = make_body(alloc, &entry.value)?;
    Ok(Part { number, body })
}

// Whether an entry goes on with the message in which the entry before it stands.
fn joins_last(before: Option<&AtomField>, entry: &AtomField) -> bool
    ensures { result ≡ shown.goes_on (option_copied before.entry) entry.now }
{
    match before {
        Some(before) => before.sub > 0 && shares_message(before, entry),
        None => false,
    }
}

// The fields of these entries.
fn parts_of(alloc: Global, entries: &[AtomField]) -> Result<Vec<Part>, AllocError>
    ensures { IfOk result (λ parts. parts.items ≡ shown.parts_after None entries.now) }
{
    let mut parts = Vec::with_capacity(alloc, entries.len())?;
    let mut before = None;
    let mut rest = entries;
    while let Some((entry, after)) = rest.split_first() {
        if !joins_last(before, entry) {
            parts.push(make_part(alloc, entry, after)?)?;
        }
        before = Some(entry);
        rest = after;
    }
    Ok(parts)
}

/// The message of an atom, which can be written. The numbers of its fields never fall, where the atom has no fault.
#[tactic(auto, unfolding(crate::specs::AtomMessage::message_of))]
pub fn atom_msg(alloc: Global, atom: &Atom) -> Result<AtomMsg, AllocError>
    ensures message { IfOk result (λ message. message ≡ shown.message_of atom.now) }
    ensures writable { IfOk result (λ message. IsWritableAtom message) }
    ensures order { HasNoFault atom.now → IfOk result (λ message. NeverFall message.parts) }
{
    let parts = parts_of(alloc, atom.fields.as_slice())?;
    Ok(AtomMsg {
        id: as_field_number(atom.id),
        parts: Seq::from_vec(parts),
    })
}
