//! How many bytes the spelling of items has, without spelling them.
ghost use Rattle.std.specs.Prelude.{◌≡◌, ◌-◌, ◌^◌, ◌<◌, ℕ, List, min, length, get_or};
ghost use Rattle.std.specs.List.{flat_map};
ghost use Rattle.atom_record.specs.declared.value.Leaf.TheVariants.{Missing};
ghost use Rattle.flat_form.specs.ItemSpelling.{spelled_leaf, spelled_slice, spelled_items};

use crate::{Item, Items};
use atom_record::{AtomField, DimKey, Leaf, Slice, Value};

/// What has one spelling as bytes.
trait Measure {
    /// The spelling.
    ghost spelling: { Self → List ℕ };

    /// How many bytes it has, or the largest number where they are more.
    fn measure(&self) -> u64
        ensures { result ≡ min (length (spelling self.now)) (2 ^ 64 - 1) };
}

// The bytes of all, one after the other.
fn measure_all<T: Measure>(all: &[T]) -> u64
    ensures { result ≡ min (length (flat_map T.spelling all.now)) (2 ^ 64 - 1) }
{
    let mut bytes: u64 = 0;
    for one in all {
        bytes = bytes.saturating_add(one.measure());
    }
    bytes
}

impl Measure for Value {
    ghost use Rattle.atom_record.specs.TypedValue.{typed_bytes};

    ghost spelling = { typed_bytes };

    // The kind takes one byte, and the length of a text two.
    fn measure(&self) -> u64 {
        match self {
            Value::Bool(_) => 2,
            Value::Int(_) | Value::Bits32(_) => 5,
            Value::Long(_) => 9,
            Value::Str(text) => (text.len() as u64).saturating_add(3),
            Value::Raw(bytes) => (bytes.len() as u64).saturating_add(3),
        }
    }
}

impl Measure for Leaf {
    ghost spelling = { spelled_leaf };

    // The tag takes one byte, and the number of values two.
    fn measure(&self) -> u64 {
        match self {
            Leaf::Missing => 1,
            Leaf::One(value) => value.measure().saturating_add(1),
            Leaf::Many(values) => measure_all(values.as_slice()).saturating_add(3),
        }
    }
}

impl Measure for Slice {
    ghost spelling = { spelled_slice };

    // The tag takes one byte, and the atom's id four.
    fn measure(&self) -> u64 {
        match self {
            Slice::Plain { .. } => 9,
            Slice::Group { .. } => 13,
        }
    }
}

impl Measure for AtomField {
    ghost use Rattle.atom_record.specs.AtomSpelling.{entry_bytes};

    ghost spelling = { entry_bytes };

    // The field, the index, the sub and the flags take one byte each.
    fn measure(&self) -> u64 {
        self.value.measure().saturating_add(4)
    }
}

// The bytes of the leaf at a place.
fn measure_leaf(dims: &DimKey, at: usize) -> u64
    requires { at < length dims.now }
    ensures { result ≡ min (length (spelled_leaf (get_or dims.now at Missing))) (2 ^ 64 - 1) }
{
    match dims.get(at) {
        Some(leaf) => leaf.measure(),
        None => 1,
    }
}

// The bytes of all leaves, one after the other.
fn measure_leaves(dims: &DimKey) -> u64
    ensures { result ≡ min (length (flat_map spelled_leaf dims.now)) (2 ^ 64 - 1) }
{
    let mut bytes: u64 = 0;
    for at in 0..dims.len() {
        bytes = bytes.saturating_add(measure_leaf(dims, at));
    }
    bytes
}

impl Measure for Item {
    ghost use Rattle.flat_form.specs.ItemSpelling.{spelled_item};

    ghost spelling = { spelled_item };

    // The tag takes one byte; a number eight; the count of leaves two, and that of slices one; the length of an atom
    // two, and its id four; the length of bytes four.
    fn measure(&self) -> u64 {
        match self {
            Item::Num(_) => 9,
            Item::Dims(dims) => measure_leaves(dims).saturating_add(3),
            Item::Slices(slices) => measure_all(slices.as_slice()).saturating_add(2),
            Item::AtomItem(atom) => measure_all(atom.fields.as_slice()).saturating_add(7),
            Item::Chunk(bytes) => (bytes.len() as u64).saturating_add(5),
        }
    }
}

/// How many bytes the spelling of items has, or 2^64 - 1 where they are more. It takes no memory.
pub fn spelled_len(items: &Items) -> u64
    ensures { result ≡ min (length (spelled_items items.now)) (2 ^ 64 - 1) }
{
    let (spelled, others) = items.parts();
    measure_all(others).saturating_add(spelled.size() as u64)
}
