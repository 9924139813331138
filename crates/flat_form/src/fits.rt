//! Which items can be spelled: those whose counts and lengths fit their widths, and whose atoms have no fault.
ghost use Rattle.std.specs.Prelude.{◌≡◌, ◌↔◌, ◌<◌, ◌^◌, length, get_or, IsTrue, IfOk, All};
ghost use Rattle.atom_record.specs.AtomSpelling.{payload_of};
ghost use Rattle.atom_record.specs.AtomSound.{HasNoFault};
ghost use Rattle.atom_record.specs.declared.value.Leaf.TheVariants.{Missing};
ghost use Rattle.flat_form.specs.Savable.{IsSavable, AreSavable, IsShortLeaf, IsShortEntry, AreShortLeaves};

use crate::encode::{encode_all, put_u32};
use crate::{Item, Items};
use atom_record::{Atom, AtomFault, AtomField, Bytes, DimKey, Leaf, Value, parse_atom};
use sd_base::Seq;
use std::alloc::{AllocError, Global};

// What a count of one byte stays below.
const BELOW_ONE: usize = 1 << 8;

// What a count of two bytes stays below.
const BELOW_TWO: usize = 1 << 16;

// What a count of four bytes stays below.
const BELOW_FOUR: usize = 1 << 32;

/// What may have a count or a length that is too large for its bytes.
trait Short {
    /// None of it has.
    ghost short: { Self → Type 0 };

    /// Whether none has.
    fn is_short(&self) -> bool
        ensures { IsTrue result ↔ short self.now };
}

// Whether all are short.
fn are_short<T: Short>(all: &[T]) -> bool
    ensures { IsTrue result ↔ All T.short all.now }
{
    for one in all {
        if !one.is_short() {
            return false;
        }
    }
    true
}

impl Short for Value {
    ghost use Rattle.atom_record.specs.TypedValue.{HasShortText};

    ghost short = { HasShortText };

    fn is_short(&self) -> bool {
        match self {
            Value::Int(_) | Value::Long(_) | Value::Bool(_) | Value::Bits32(_) => true,
            Value::Str(text) => text.len() < BELOW_TWO,
            Value::Raw(bytes) => bytes.len() < BELOW_TWO,
        }
    }
}

impl Short for Leaf {
    ghost short = { IsShortLeaf };

    fn is_short(&self) -> bool {
        match self {
            Leaf::Missing => true,
            Leaf::One(value) => value.is_short(),
            Leaf::Many(values) => values.len() < BELOW_TWO && are_short(values.as_slice()),
        }
    }
}

impl Short for AtomField {
    ghost short = { IsShortEntry };

    fn is_short(&self) -> bool {
        self.value.is_short()
    }
}

// Whether the leaf at a place is short, as one that is missing is.
fn is_short_at(dims: &DimKey, at: usize) -> bool
    requires { at < length dims.now }
    ensures { IsTrue result ↔ IsShortLeaf (get_or dims.now at Missing) }
{
    match dims.get(at) {
        Some(leaf) => leaf.is_short(),
        None => true,
    }
}

// Whether each leaf of a key is short.
fn has_short_leaves(dims: &DimKey) -> bool
    ensures { IsTrue result ↔ All IsShortLeaf dims.now }
{
    for at in 0..dims.len() {
        if !is_short_at(dims, at) {
            return false;
        }
    }
    true
}

// Whether the leaves of a key are few enough, and each is short.
fn is_short_key(dims: &DimKey) -> bool
    ensures { IsTrue result ↔ AreShortLeaves dims.now }
{
    dims.len() < BELOW_TWO && has_short_leaves(dims)
}

// The payload that an atom has whose texts are short.
fn payload_of(alloc: Global, atom: &Atom) -> Result<Bytes, AllocError>
    requires { All IsShortEntry atom.now.fields }
    ensures { IfOk result (λ payload. payload ≡ payload_of atom.now) }
{
    let mut payload = Vec::new(alloc);
    put_u32(atom.id, &mut payload)?;
    encode_all(atom.fields.as_slice(), alloc, &mut payload)?;
    Ok(Seq::from_vec(payload))
}

// Whether an atom has no fault: its payload is then read as the same atom.
fn has_no_fault(alloc: Global, atom: &Atom) -> Result<bool, AllocError>
    ensures { IfOk result (λ sound. IsTrue sound ↔ HasNoFault atom.now) }
{
    if !are_short(atom.fields.as_slice()) {
        return Ok(false);
    }
    let payload = payload_of(alloc, atom)?;
    match parse_atom(alloc, payload.as_slice()) {
        Ok(read) => Ok(read == *atom),
        Err(AtomFault::Bad(_)) => Ok(false),
        Err(AtomFault::Memory) => Err(AllocError),
    }
}

/// Whether an item can be spelled.
pub(crate) fn is_savable(alloc: Global, item: &Item) -> Result<bool, AllocError>
    ensures { IfOk result (λ can. IsTrue can ↔ IsSavable item.now) }
{
    match item {
        Item::Num(_) => Ok(true),
        Item::Dims(dims) => Ok(is_short_key(dims)),
        Item::Slices(slices) => Ok(slices.len() < BELOW_ONE),
        Item::AtomItem(atom) => has_no_fault(alloc, atom),
        Item::Chunk(bytes) => Ok(bytes.len() < BELOW_FOUR),
    }
}

// Whether all of these can be.
fn are_savable(alloc: Global, all: &[Item]) -> Result<bool, AllocError>
    ensures { IfOk result (λ can. IsTrue can ↔ AreSavable all.now) }
{
    for item in all {
        let can = is_savable(alloc, item)?;
        if !can {
            return Ok(false);
        }
    }
    Ok(true)
}

/// Whether all items can be spelled, which is what [`crate::encode_items`] asks for.
pub fn can_be_spelled(alloc: Global, items: &Items) -> Result<bool, AllocError>
    ensures { IfOk result (λ can. IsTrue can ↔ AreSavable items.now) }
{
    let (spelled, others) = items.parts();
    spelled.show_spelled();
    are_savable(alloc, others)
}
