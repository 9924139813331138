//! One item of each kind, and its bytes.
use atom_record::{Atom, AtomField, DimKey, Leaf, MetricKey, Slice, Value};
use flat_form::{Item, Items};
use sd_base::Seq;
use std::alloc::{AllocError, Global};

fn text(alloc: Global, bytes: &[u8]) -> Result<Value, AllocError> {
    Ok(Value::Str(Seq::from_slice(alloc, bytes)?))
}

fn raw(alloc: Global, bytes: &[u8]) -> Result<Value, AllocError> {
    Ok(Value::Raw(Seq::from_slice(alloc, bytes)?))
}

// Adds a text.
fn push_text(alloc: Global, leaves: &mut DimKey, bytes: &[u8]) -> Result<(), AllocError> {
    let word = text(alloc, bytes)?;
    leaves.push(Leaf::One(word))
}

// Adds two numbers and raw bytes.
fn push_values(alloc: Global, values: &mut Seq<Value>) -> Result<(), AllocError> {
    values.push(Value::Long(-2))?;
    values.push(Value::Bits32(7))?;
    push_raw(alloc, values, b"\xff")
}

fn many(alloc: Global) -> Result<Seq<Value>, AllocError> {
    let mut values = Seq::new(alloc);
    push_values(alloc, &mut values)?;
    Ok(values)
}

// Adds raw bytes.
fn push_raw(alloc: Global, values: &mut Seq<Value>, bytes: &[u8]) -> Result<(), AllocError> {
    let last = raw(alloc, bytes)?;
    values.push(last)
}

// Adds many values.
fn push_many(alloc: Global, leaves: &mut DimKey) -> Result<(), AllocError> {
    let values = many(alloc)?;
    leaves.push(Leaf::Many(values))
}

// Adds one leaf of each form.
fn push_leaves(alloc: Global, leaves: &mut DimKey) -> Result<(), AllocError> {
    leaves.push(Leaf::Missing)?;
    leaves.push(Leaf::One(Value::Int(-2)))?;
    push_text(alloc, leaves, b"ab")?;
    leaves.push(Leaf::One(Value::Bool(true)))?;
    push_many(alloc, leaves)
}

pub fn dims(alloc: Global) -> Result<DimKey, AllocError> {
    let mut leaves = DimKey::new(alloc);
    push_leaves(alloc, &mut leaves)?;
    Ok(leaves)
}

pub const DIMS: &[u8] = b"\x02\x05\0\
    \0\
    \x01\x01\xfe\xff\xff\xff\
    \x01\x04\x02\0ab\
    \x01\x03\x01\
    \x02\x03\0\x02\xfe\xff\xff\xff\xff\xff\xff\xff\x06\x07\0\0\0\x05\x01\0\xff";

pub fn slices(alloc: Global) -> Result<Seq<Slice>, AllocError> {
    let plain = Slice::Plain {
        atom_id: 7,
        value: -1,
    };
    let group = Slice::Group {
        atom_id: 8,
        group: 3,
    };
    let mut slices = Seq::new(alloc);
    slices.push(plain)?;
    slices.push(group)?;
    Ok(slices)
}

pub const SLICES: &[u8] = b"\x03\x02\
    \x01\x07\0\0\0\xff\xff\xff\xff\
    \x02\x08\0\0\0\x03\0\0\0\0\0\0\0";

pub fn atom(alloc: Global) -> Result<Atom, AllocError> {
    let entry = AtomField {
        field: 1,
        index: 0,
        sub: 0,
        flags: 0,
        value: Value::Bool(true),
    };
    let mut fields = Seq::new(alloc);
    fields.push(entry)?;
    Ok(Atom { id: 5, fields })
}

pub const ATOM: &[u8] = b"\x04\x0a\0\x05\0\0\0\x01\0\0\0\x03\x01";

pub const NUM: &[u8] = b"\x01\x02\x01\0\0\0\0\0\0";

pub const CHUNK: &[u8] = b"\x05\x03\0\0\0abc";

pub fn key(alloc: Global) -> Result<MetricKey, AllocError> {
    let dims = dims(alloc)?;
    let slices = slices(alloc)?;
    Ok(MetricKey { dims, slices })
}

// Adds one item of each kind.
fn push_items(alloc: Global, items: &mut Items) -> Result<(), AllocError> {
    items.push(Item::Num(258))?;
    push_dims(alloc, items)?;
    push_slices(alloc, items)?;
    push_atom(alloc, items)?;
    push_chunk(alloc, items)
}

/// One item of each kind.
pub fn items(alloc: Global) -> Result<Items, AllocError> {
    let mut items = Items::new(alloc);
    push_items(alloc, &mut items)?;
    Ok(items)
}

fn push_dims(alloc: Global, items: &mut Items) -> Result<(), AllocError> {
    let dims = dims(alloc)?;
    items.push(Item::Dims(dims))
}

fn push_slices(alloc: Global, items: &mut Items) -> Result<(), AllocError> {
    let slices = slices(alloc)?;
    items.push(Item::Slices(slices))
}

fn push_atom(alloc: Global, items: &mut Items) -> Result<(), AllocError> {
    let atom = atom(alloc)?;
    items.push(Item::AtomItem(atom))
}

fn push_chunk(alloc: Global, items: &mut Items) -> Result<(), AllocError> {
    let bytes = Seq::from_slice(alloc, b"abc")?;
    items.push(Item::Chunk(bytes))
}

// Adds so many numbers.
fn push_numbers(items: &mut Items, numbers: &[u64]) -> Result<(), AllocError> {
    for number in numbers {
        items.push(Item::Num(*number))?;
    }
    Ok(())
}

/// So many numbers, each an item.
pub fn numbers(alloc: Global, numbers: &[u64]) -> Result<Items, AllocError> {
    let mut items = Items::new(alloc);
    push_numbers(&mut items, numbers)?;
    Ok(items)
}
