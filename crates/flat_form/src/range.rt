//! The numbers of items fit their types, as those of all values that a program holds do. It is known of numbers that
//! are read; so here all are.
ghost use Rattle.std.specs.Prelude.{◌<◌, length, get_or, All};
ghost use Rattle.atom_record.specs.AtomSound.{IsInRange, IsText};
ghost use Rattle.atom_record.specs.TypedValue.{HasShortText};
ghost use Rattle.atom_record.specs.declared.value.Leaf.TheVariants.{Missing};
ghost use Rattle.flat_form.specs.Savable.{AreSavable, IsSavable, IsShortLeaf};
ghost use Rattle.flat_form.specs.ItemRange.{IsItemInRange, IsLeafInRange, IsSliceInRange};

use crate::{Item, Items};
use atom_record::{DimKey, Leaf, Slice, Value};

/// The numbers of all items fit. It does nothing when it runs.
pub fn fit_items(items: &Items)
    requires { AreSavable items.now }
    ensures { All IsItemInRange items.now }
{
    let (spelled, others) = items.parts();
    spelled.show_spelled();
    fit_all(others);
}

fn fit_all(items: &[Item])
    requires { AreSavable items.now }
    ensures { All IsItemInRange items.now }
{
    for item in items {
        fit_item(item);
    }
}

/// The numbers of an item fit. It does nothing when it runs.
pub(crate) fn fit_item(item: &Item)
    requires { IsSavable item.now }
    ensures { IsItemInRange item.now }
{
    match item {
        Item::Num(number) => {
            let _number = *number;
        }
        Item::Dims(dims) => fit_dims(dims),
        Item::Slices(slices) => fit_slices(slices.as_slice()),
        Item::AtomItem(_) | Item::Chunk(_) => {}
    }
}

fn fit_dims(dims: &DimKey)
    requires { All IsShortLeaf dims.now }
    ensures { All IsLeafInRange dims.now }
{
    for at in 0..dims.len() {
        fit_leaf_at(dims, at);
    }
}

fn fit_leaf_at(dims: &DimKey, at: usize)
    requires within { at < length dims.now }
    requires short { IsShortLeaf (get_or dims.now at Missing) }
    ensures { IsLeafInRange (get_or dims.now at Missing) }
{
    match dims.get(at) {
        Some(leaf) => fit_leaf(leaf),
        None => {}
    }
}

fn fit_leaf(leaf: &Leaf)
    requires { IsShortLeaf leaf.now }
    ensures { IsLeafInRange leaf.now }
{
    match leaf {
        Leaf::Missing => {}
        Leaf::One(value) => fit_value(value),
        Leaf::Many(values) => fit_values(values.as_slice()),
    }
}

fn fit_values(values: &[Value])
    requires { All HasShortText values.now }
    ensures { All IsInRange values.now }
{
    for value in values {
        fit_value(value);
    }
}

fn fit_value(value: &Value)
    requires { HasShortText value.now }
    ensures { IsInRange value.now }
{
    match value {
        Value::Int(number) => {
            let _number = *number;
        }
        Value::Long(number) => {
            let _number = *number;
        }
        Value::Bool(_) => {}
        Value::Str(text) => fit_bytes(text.as_slice()),
        Value::Raw(bytes) => fit_bytes(bytes.as_slice()),
        Value::Bits32(bits) => {
            let _bits = *bits;
        }
    }
}

fn fit_bytes(bytes: &[u8])
    ensures { All (λ byte. byte < 256) bytes.now }
{
    let _bytes = bytes;
}

fn fit_slices(slices: &[Slice])
    ensures { All IsSliceInRange slices.now }
{
    for one in slices {
        fit_slice(one);
    }
}

fn fit_slice(slice: &Slice)
    ensures { IsSliceInRange slice.now }
{
    match slice {
        Slice::Plain { atom_id, value } => {
            let _plain = (*atom_id, *value);
        }
        Slice::Group { atom_id, group } => {
            let _group = (*atom_id, *group);
        }
    }
}
