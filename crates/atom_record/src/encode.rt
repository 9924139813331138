//! From values and atoms to bytes.
ghost use Rattle.std.specs.Prelude.{◌≡◌, ◌∷◌, ◌++◌, ◌<◌, ◌^◌, length, IfOk, OnOk, All};
ghost use Rattle.std.specs.Int.{w16, w32, w64, to_le_bytes, cast_unsigned};
ghost use Rattle.std.specs.List.{flat_map};
ghost use Rattle.atom_record.specs.AtomSpelling.{type_of, truth_byte, sized_bytes, value_bytes, entry_bytes, payload_of};
ghost use Rattle.atom_record.specs.AtomSound.{HasNoFault};
ghost use Rattle.atom_record.specs.TypedValue.{typed_bytes, HasShortText};

use crate::{Atom, AtomField, Bytes, Value};
use sd_base::Seq;
use std::alloc::{AllocError, Global};

fn put_u32(number: u32, out: &mut Vec<u8>) -> Result<(), AllocError>
    ensures { OnOk result (out.new.items ≡ out.old.items ++ to_le_bytes w32 number) }
{
    out.extend_from_slice(&number.to_le_bytes())
}

fn put_i32(number: i32, out: &mut Vec<u8>) -> Result<(), AllocError>
    ensures { OnOk result
        (out.new.items ≡ out.old.items ++ to_le_bytes w32 (cast_unsigned w32 number)) }
{
    put_u32(number.cast_unsigned(), out)
}

fn put_i64(number: i64, out: &mut Vec<u8>) -> Result<(), AllocError>
    ensures { OnOk result
        (out.new.items ≡ out.old.items ++ to_le_bytes w64 (cast_unsigned w64 number)) }
{
    out.extend_from_slice(&number.cast_unsigned().to_le_bytes())
}

// Adds the number of bytes, and these.
fn put_text(text: &[u8], out: &mut Vec<u8>) -> Result<(), AllocError>
    requires { length text.now < 2 ^ 16 }
    ensures { OnOk result (out.new.items ≡ out.old.items ++ sized_bytes text.now) }
{
    out.extend_from_slice(&(text.len() as u16).to_le_bytes())?;
    out.extend_from_slice(text)
}

impl Value {
    // The byte that names the kind of a value.
    fn type_byte(&self) -> u8
        ensures { result ≡ type_of self.now }
    {
        match self {
            Value::Int(_) => 1,
            Value::Long(_) => 2,
            Value::Bool(_) => 3,
            Value::Str(_) => 4,
            Value::Raw(_) => 5,
            Value::Bits32(_) => 6,
        }
    }

    fn put_content(&self, out: &mut Vec<u8>) -> Result<(), AllocError>
        requires { HasShortText self.now }
        ensures { OnOk result (out.new.items ≡ out.old.items ++ value_bytes self.now) }
    {
        match self {
            Value::Int(number) => put_i32(*number, out),
            Value::Long(number) => put_i64(*number, out),
            Value::Bool(truth) => Ok(out.push(u8::from(*truth))?),
            Value::Str(text) => put_text(text.as_slice(), out),
            Value::Raw(bytes) => put_text(bytes.as_slice(), out),
            Value::Bits32(bits) => put_u32(*bits, out),
        }
    }
}

/// Adds the byte of a value's kind, and the value.
pub fn encode_value(value: &Value, out: &mut Vec<u8>) -> Result<(), AllocError>
    requires { HasShortText value.now }
    ensures { OnOk result (out.new.items ≡ out.old.items ++ typed_bytes value.now) }
{
    out.push(value.type_byte())?;
    value.put_content(out)
}

fn encode_entry(entry: &AtomField, out: &mut Vec<u8>) -> Result<(), AllocError>
    requires { HasShortText entry.now.value }
    ensures { OnOk result (out.new.items ≡ out.old.items ++ entry_bytes entry.now) }
{
    out.extend_from_slice(&[entry.field, entry.index, entry.sub, entry.flags])?;
    encode_value(&entry.value, out)
}

fn encode_entries(entries: &[AtomField], out: &mut Vec<u8>) -> Result<(), AllocError>
    requires { All (λ entry. HasShortText entry.value) entries.now }
    ensures { OnOk result (out.new.items ≡ out.old.items ++ flat_map entry_bytes entries.now) }
{
    for entry in entries {
        encode_entry(entry, out)?;
    }
    Ok(())
}

/// The payload of an atom that has no fault.
pub fn encode_atom(alloc: Global, atom: &Atom) -> Result<Bytes, AllocError>
    requires { HasNoFault atom.now }
    ensures { IfOk result (λ payload. payload ≡ payload_of atom.now) }
{
    let mut payload = Vec::new(alloc);
    put_u32(atom.id, &mut payload)?;
    encode_entries(atom.fields.as_slice(), &mut payload)?;
    Ok(Seq::from_vec(payload))
}
