//! From items to bytes.
ghost use Rattle.std.specs.Prelude.{◌≡◌, ℕ, List, [], ◌∷◌, ◌++◌, ◌<◌, ◌^◌, length, get_or, IfOk, OnOk, All};
ghost use Rattle.std.specs.Int.{w16, w32, w64, to_le_bytes, cast_unsigned};
ghost use Rattle.std.specs.List.{flat_map};
ghost use Rattle.atom_record.specs.AtomSpelling.{sized_bytes, payload_of};
ghost use Rattle.atom_record.specs.AtomSound.{HasNoFault};
ghost use Rattle.atom_record.specs.declared.value.Leaf.TheVariants.{Missing};
ghost use Rattle.flat_form.specs.ItemSpelling.{spelled_leaf, spelled_slice, spelled_items};
ghost use Rattle.flat_form.specs.Savable.{AreSavable, IsShortLeaf};

use crate::{Item, Items};
use atom_record::{Atom, AtomField, Bytes, DimKey, Leaf, Slice, Value, encode_atom, encode_value};
use sd_base::Seq;
use std::alloc::{AllocError, Global};

/// What has one spelling as bytes.
pub(crate) trait Encode {
    /// The spelling.
    ghost spelling: { Self → List ℕ };

    /// Its counts and lengths fit their widths.
    ghost can_be: { Self → Type 0 };

    /// Adds the spelling at the end.
    fn encode(&self, alloc: Global, out: &mut Vec<u8>) -> Result<(), AllocError>
        requires { can_be self.now }
        ensures { OnOk result (out.new.items ≡ out.old.items ++ spelling self.now) };
}

// Adds the spellings of all, one after the other.
pub(crate) fn encode_all<T: Encode>(
    all: &[T],
    alloc: Global,
    out: &mut Vec<u8>,
) -> Result<(), AllocError>
    requires { All T.can_be all.now }
    ensures { OnOk result (out.new.items ≡ out.old.items ++ flat_map T.spelling all.now) }
{
    for one in all {
        one.encode(alloc, out)?;
    }
    Ok(())
}

fn put_u16(number: u16, out: &mut Vec<u8>) -> Result<(), AllocError>
    ensures { OnOk result (out.new.items ≡ out.old.items ++ to_le_bytes w16 number) }
{
    out.extend_from_slice(&number.to_le_bytes())
}

pub(crate) fn put_u32(number: u32, out: &mut Vec<u8>) -> Result<(), AllocError>
    ensures { OnOk result (out.new.items ≡ out.old.items ++ to_le_bytes w32 number) }
{
    out.extend_from_slice(&number.to_le_bytes())
}

fn put_u64(number: u64, out: &mut Vec<u8>) -> Result<(), AllocError>
    ensures { OnOk result (out.new.items ≡ out.old.items ++ to_le_bytes w64 number) }
{
    out.extend_from_slice(&number.to_le_bytes())
}

impl Encode for Value {
    ghost use Rattle.atom_record.specs.TypedValue.{typed_bytes, HasShortText};

    ghost spelling = { typed_bytes };

    ghost can_be = { HasShortText };

    fn encode(&self, _alloc: Global, out: &mut Vec<u8>) -> Result<(), AllocError> {
        encode_value(self, out)
    }
}

impl Encode for AtomField {
    ghost use Rattle.atom_record.specs.AtomSpelling.{entry_bytes};
    ghost use Rattle.flat_form.specs.Savable.{IsShortEntry};

    ghost spelling = { entry_bytes };

    ghost can_be = { IsShortEntry };

    fn encode(&self, _alloc: Global, out: &mut Vec<u8>) -> Result<(), AllocError> {
        out.extend_from_slice(&[self.field, self.index, self.sub, self.flags])?;
        encode_value(&self.value, out)
    }
}

// Adds the tag 2, the number of values in two bytes, and their spellings.
fn encode_many<T: Encode>(values: &[T], alloc: Global, out: &mut Vec<u8>) -> Result<(), AllocError>
    requires count { length values.now < 2 ^ 16 }
    requires each { All T.can_be values.now }
    ensures { OnOk result (out.new.items ≡ out.old.items
        ++ 2 ∷ (to_le_bytes w16 (length values.now) ++ flat_map T.spelling values.now)) }
{
    out.push(2)?;
    put_u16(values.len() as u16, out)?;
    encode_all(values, alloc, out)
}

impl Encode for Leaf {
    ghost use Rattle.flat_form.specs.ItemSpelling.{spelled_leaf};
    ghost use Rattle.flat_form.specs.Savable.{IsShortLeaf};

    ghost spelling = { spelled_leaf };

    ghost can_be = { IsShortLeaf };

    fn encode(&self, alloc: Global, out: &mut Vec<u8>) -> Result<(), AllocError> {
        match self {
            Leaf::Missing => Ok(out.push(0)?),
            Leaf::One(value) => {
                out.push(1)?;
                encode_value(value, out)
            }
            Leaf::Many(values) => encode_many(values.as_slice(), alloc, out),
        }
    }
}

// Adds the spelling of the leaf at a place.
fn encode_leaf(dims: &DimKey, at: usize, alloc: Global, out: &mut Vec<u8>) -> Result<(), AllocError>
    requires within { at < length dims.now }
    requires short { IsShortLeaf (get_or dims.now at Missing) }
    ensures { OnOk result (out.new.items ≡ out.old.items ++ spelled_leaf (get_or dims.now at Missing)) }
{
    match dims.get(at) {
        Some(leaf) => leaf.encode(alloc, out),
        None => Ok(out.push(0)?),
    }
}

// Adds the spellings of all leaves, one after the other.
fn encode_leaves(dims: &DimKey, alloc: Global, out: &mut Vec<u8>) -> Result<(), AllocError>
    requires { All IsShortLeaf dims.now }
    ensures { OnOk result (out.new.items ≡ out.old.items ++ flat_map spelled_leaf dims.now) }
{
    for at in 0..dims.len() {
        encode_leaf(dims, at, alloc, out)?;
    }
    Ok(())
}

// Adds the tag 2, the number of leaves in two bytes, and these.
fn encode_dims(dims: &DimKey, alloc: Global, out: &mut Vec<u8>) -> Result<(), AllocError>
    requires count { length dims.now < 2 ^ 16 }
    requires each { All IsShortLeaf dims.now }
    ensures { OnOk result (out.new.items
        ≡ out.old.items ++ 2 ∷ (to_le_bytes w16 (length dims.now) ++ flat_map spelled_leaf dims.now)) }
{
    out.push(2)?;
    put_u16(dims.len() as u16, out)?;
    encode_leaves(dims, alloc, out)
}

// Adds a kind of slices and the id of an atom.
fn put_kind(kind: u8, atom_id: u32, out: &mut Vec<u8>) -> Result<(), AllocError>
    ensures { OnOk result (out.new.items ≡ out.old.items ++ kind ∷ to_le_bytes w32 atom_id) }
{
    out.push(kind)?;
    put_u32(atom_id, out)
}

fn put_group(atom_id: u32, bits: u64, out: &mut Vec<u8>) -> Result<(), AllocError>
    ensures { OnOk result (out.new.items
        ≡ out.old.items ++ 2 ∷ (to_le_bytes w32 atom_id ++ to_le_bytes w64 bits)) }
{
    put_kind(2, atom_id, out)?;
    put_u64(bits, out)
}

impl Encode for Slice {
    ghost spelling = { spelled_slice };

    ghost can_be = { λ slice. Unit {0} };

    fn encode(&self, _alloc: Global, out: &mut Vec<u8>) -> Result<(), AllocError> {
        match self {
            Slice::Plain { atom_id, value } => {
                put_kind(1, *atom_id, out)?;
                put_u32(value.cast_unsigned(), out)
            }
            Slice::Group { atom_id, group } => put_group(*atom_id, group.cast_unsigned(), out),
        }
    }
}

// Adds the tag 1 and a number.
fn put_num(number: u64, out: &mut Vec<u8>) -> Result<(), AllocError>
    ensures { OnOk result (out.new.items ≡ out.old.items ++ 1 ∷ to_le_bytes w64 number) }
{
    out.push(1)?;
    put_u64(number, out)
}

// Adds the tag 3, the number of slices in one byte, and these.
fn encode_slices(slices: &[Slice], alloc: Global, out: &mut Vec<u8>) -> Result<(), AllocError>
    requires { length slices.now < 2 ^ 8 }
    ensures { OnOk result (out.new.items
        ≡ out.old.items ++ 3 ∷ length slices.now ∷ flat_map spelled_slice slices.now) }
{
    out.push(3)?;
    out.push(slices.len() as u8)?;
    encode_all(slices, alloc, out)
}

// Adds the tag 4, the number of a payload's bytes, and these.
fn put_payload(payload: &[u8], out: &mut Vec<u8>) -> Result<(), AllocError>
    requires { length payload.now < 2 ^ 16 }
    ensures { OnOk result (out.new.items ≡ out.old.items ++ 4 ∷ sized_bytes payload.now) }
{
    out.push(4)?;
    put_u16(payload.len() as u16, out)?;
    out.extend_from_slice(payload)
}

// Adds the tag 4 and the payload of an atom.
fn put_atom(alloc: Global, atom: &Atom, out: &mut Vec<u8>) -> Result<(), AllocError>
    requires { HasNoFault atom.now }
    ensures { OnOk result (out.new.items ≡ out.old.items ++ 4 ∷ sized_bytes (payload_of atom.now)) }
{
    let payload = encode_atom(alloc, atom)?;
    put_payload(payload.as_slice(), out)
}

// Adds the tag 5, the number of bytes, and these.
fn put_chunk(chunk: &[u8], out: &mut Vec<u8>) -> Result<(), AllocError>
    requires { length chunk.now < 2 ^ 32 }
    ensures { OnOk result (out.new.items
        ≡ out.old.items ++ 5 ∷ (to_le_bytes w32 (length chunk.now) ++ chunk.now)) }
{
    out.push(5)?;
    put_u32(chunk.len() as u32, out)?;
    out.extend_from_slice(chunk)
}

impl Encode for Item {
    ghost use Rattle.flat_form.specs.ItemSpelling.{spelled_item};
    ghost use Rattle.flat_form.specs.Savable.{IsSavable};

    ghost spelling = { spelled_item };

    ghost can_be = { IsSavable };

    fn encode(&self, alloc: Global, out: &mut Vec<u8>) -> Result<(), AllocError> {
        match self {
            Item::Num(number) => put_num(*number, out),
            Item::Dims(dims) => encode_dims(dims, alloc, out),
            Item::Slices(slices) => encode_slices(slices.as_slice(), alloc, out),
            Item::AtomItem(atom) => put_atom(alloc, atom, out),
            Item::Chunk(chunk) => put_chunk(chunk.as_slice(), out),
        }
    }
}

/// The one spelling of items, each of which can be spelled.
pub fn encode_items(alloc: Global, items: Items) -> Result<Bytes, AllocError>
    requires { AreSavable items }
    ensures { IfOk result (λ bytes. bytes ≡ spelled_items items) }
{
    let (spelled, others) = items.into_parts();
    let mut bytes = spelled.into_bytes();
    encode_all(&others, alloc, &mut bytes)?;
    Ok(Seq::from_vec(bytes))
}
