//! From bytes to items.
ghost use Rattle.std.specs.Prelude.{◌≡◌, ℕ, List, ◌∷◌, Result, Ok, Err, IfOk};
ghost use Rattle.std.specs.Int.{w16, w32, w64};
ghost use Rattle.sd_base.specs.Reads.{GivesBy, many};
ghost use Rattle.flat_form.specs.ItemReading.{NoItem, no_item_of, item_uint_at, counted_at, values_at, leaf_at, slice_at, item_at};
ghost use Rattle.flat_form.specs.ItemRange.{ReadsItems};

use crate::spelled::SpelledItems;
use crate::{FlatError, Item, Items};
use atom_record::{AtomFault, Bytes, DimKey, Leaf, Slice, Value, decode_value, parse_atom};
use sd_base::{Seq, split_bytes, split_counted, split_u16, split_u32, split_u64};
use std::alloc::{AllocError, Global};

fn u16_of(bytes: &[u8]) -> Result<(u16, &[u8]), FlatError>
    ensures { GivesBy no_item_of (λ x. (x.0, x.1.now)) result (item_uint_at w16 bytes.now) }
{
    split_u16(bytes).ok_or(FlatError::Bad)
}

fn u32_of(bytes: &[u8]) -> Result<(u32, &[u8]), FlatError>
    ensures { GivesBy no_item_of (λ x. (x.0, x.1.now)) result (item_uint_at w32 bytes.now) }
{
    split_u32(bytes).ok_or(FlatError::Bad)
}

fn u64_of(bytes: &[u8]) -> Result<(u64, &[u8]), FlatError>
    ensures { GivesBy no_item_of (λ x. (x.0, x.1.now)) result (item_uint_at w64 bytes.now) }
{
    split_u64(bytes).ok_or(FlatError::Bad)
}

/// What can be read from the front of bytes.
trait Decode: Sized {
    /// The reading.
    ghost at: { List ℕ → Result (Self × List ℕ) NoItem };

    /// The value at the front, and the bytes after it.
    fn decode(alloc: Global, bytes: &[u8]) -> Result<(Self, &[u8]), FlatError>
        ensures { GivesBy no_item_of (λ x. (x.0, x.1.now)) result (at bytes.now) };
}

// So many values, one after the other.
fn decode_many<T: Decode + Drop>(
    alloc: Global,
    count: usize,
    bytes: &[u8],
) -> Result<(Seq<T>, &[u8]), FlatError>
    ensures { GivesBy no_item_of (λ x. (x.0, x.1.now)) result (many T.at count bytes.now) }
{
    let mut values = Seq::new(alloc);
    let mut rest = bytes;
    for _turn in 0..count {
        let (value, after) = T::decode(alloc, rest)?;
        values.push(value)?;
        rest = after;
    }
    Ok((values, rest))
}

impl Decode for Value {
    ghost use Rattle.flat_form.specs.ItemReading.{value_in};

    ghost at = { value_in };

    fn decode(alloc: Global, bytes: &[u8]) -> Result<(Value, &[u8]), FlatError> {
        match decode_value(alloc, bytes) {
            Ok(read) => Ok(read),
            Err(AtomFault::Bad(_)) => Err(FlatError::Bad),
            Err(AtomFault::Memory) => Err(FlatError::Memory),
        }
    }
}

#[tactic(auto, unfolding(crate::specs::ItemReading::values_at))]
fn values_of(alloc: Global, bytes: &[u8]) -> Result<(Seq<Value>, &[u8]), FlatError>
    ensures { GivesBy no_item_of (λ x. (x.0, x.1.now)) result (values_at bytes.now) }
{
    let (count, rest) = u16_of(bytes)?;
    decode_many::<Value>(alloc, usize::from(count), rest)
}

// What stands after the tag 1: the one value of a leaf.
#[tactic(auto, unfolding(crate::specs::ItemReading::leaf_at))]
fn one_of(alloc: Global, bytes: &[u8]) -> Result<(Leaf, &[u8]), FlatError>
    ensures { GivesBy no_item_of (λ x. (x.0, x.1.now)) result (leaf_at (1 ∷ bytes.now)) }
{
    let (value, rest) = Value::decode(alloc, bytes)?;
    Ok((Leaf::One(value), rest))
}

// What stands after the tag 2: the values of a leaf.
#[tactic(auto, unfolding(crate::specs::ItemReading::leaf_at))]
fn many_of(alloc: Global, bytes: &[u8]) -> Result<(Leaf, &[u8]), FlatError>
    ensures { GivesBy no_item_of (λ x. (x.0, x.1.now)) result (leaf_at (2 ∷ bytes.now)) }
{
    let (values, rest) = values_of(alloc, bytes)?;
    Ok((Leaf::Many(values), rest))
}

impl Decode for Leaf {
    ghost at = { leaf_at };

    #[tactic(auto, unfolding(crate::specs::ItemReading::leaf_at))]
    fn decode(alloc: Global, bytes: &[u8]) -> Result<(Leaf, &[u8]), FlatError> {
        let [tag, rest @ ..] = bytes else {
            return Err(FlatError::Bad);
        };
        match *tag {
            0 => Ok((Leaf::Missing, rest)),
            1 => one_of(alloc, rest),
            2 => many_of(alloc, rest),
            _ => Err(FlatError::Bad),
        }
    }
}

// What stands after the tag 1: the value of a state.
#[tactic(auto, unfolding(crate::specs::ItemReading::slice_at))]
fn plain_of(bytes: &[u8]) -> Result<(Slice, &[u8]), FlatError>
    ensures { GivesBy no_item_of (λ x. (x.0, x.1.now)) result (slice_at (1 ∷ bytes.now)) }
{
    let (atom_id, rest) = u32_of(bytes)?;
    let (value, rest) = u32_of(rest)?;
    let value = value.cast_signed();
    Ok((Slice::Plain { atom_id, value }, rest))
}

// What stands after the tag 2: a group of a state's values.
#[tactic(auto, unfolding(crate::specs::ItemReading::slice_at))]
fn group_of(bytes: &[u8]) -> Result<(Slice, &[u8]), FlatError>
    ensures { GivesBy no_item_of (λ x. (x.0, x.1.now)) result (slice_at (2 ∷ bytes.now)) }
{
    let (atom_id, rest) = u32_of(bytes)?;
    let (group, rest) = u64_of(rest)?;
    let group = group.cast_signed();
    Ok((Slice::Group { atom_id, group }, rest))
}

impl Decode for Slice {
    ghost at = { slice_at };

    #[tactic(auto, unfolding(crate::specs::ItemReading::slice_at))]
    fn decode(_alloc: Global, bytes: &[u8]) -> Result<(Slice, &[u8]), FlatError> {
        let [tag, rest @ ..] = bytes else {
            return Err(FlatError::Bad);
        };
        match *tag {
            1 => plain_of(rest),
            2 => group_of(rest),
            _ => Err(FlatError::Bad),
        }
    }
}

// The bytes after their number, which is one of two bytes.
fn short_text_of(bytes: &[u8]) -> Result<(&[u8], &[u8]), FlatError>
    ensures { GivesBy no_item_of (λ x. (x.0.now, x.1.now)) result (counted_at w16 bytes.now) }
{
    split_counted(bytes).ok_or(FlatError::Bad)
}

// The bytes after their number, which is one of four bytes.
fn long_text_of(bytes: &[u8]) -> Result<(&[u8], &[u8]), FlatError>
    ensures { GivesBy no_item_of (λ x. (x.0.now, x.1.now)) result (counted_at w32 bytes.now) }
{
    let (count, rest) = u32_of(bytes)?;
    split_bytes(rest, u64::from(count)).ok_or(FlatError::Bad)
}

// What stands after the tag 1: a number.
#[tactic(auto, unfolding(crate::specs::ItemReading::item_at))]
fn num_of(bytes: &[u8]) -> Result<(Item, &[u8]), FlatError>
    ensures { GivesBy no_item_of (λ x. (x.0, x.1.now)) result (item_at (1 ∷ bytes.now)) }
{
    let (number, rest) = u64_of(bytes)?;
    Ok((Item::Num(number), rest))
}

// The key of these leaves.
fn key_from(alloc: Global, leaves: Seq<Leaf>) -> Result<DimKey, AllocError>
    ensures { IfOk result (λ key. key ≡ leaves) }
{
    let mut key = DimKey::new(alloc);
    for leaf in leaves.into_vec() {
        key.push(leaf)?;
    }
    Ok(key)
}

// What stands after the tag 2: leaves.
#[tactic(auto, unfolding(crate::specs::ItemReading::item_at))]
fn dims_of(alloc: Global, bytes: &[u8]) -> Result<(Item, &[u8]), FlatError>
    ensures { GivesBy no_item_of (λ x. (x.0, x.1.now)) result (item_at (2 ∷ bytes.now)) }
{
    let (count, rest) = u16_of(bytes)?;
    let (leaves, rest) = decode_many::<Leaf>(alloc, usize::from(count), rest)?;
    Ok((Item::Dims(key_from(alloc, leaves)?), rest))
}

// What stands after the tag 3: slices.
#[tactic(auto, unfolding(crate::specs::ItemReading::item_at))]
fn slices_of(alloc: Global, bytes: &[u8]) -> Result<(Item, &[u8]), FlatError>
    ensures { GivesBy no_item_of (λ x. (x.0, x.1.now)) result (item_at (3 ∷ bytes.now)) }
{
    let [count, rest @ ..] = bytes else {
        return Err(FlatError::Bad);
    };
    let (slices, rest) = decode_many::<Slice>(alloc, usize::from(*count), rest)?;
    Ok((Item::Slices(slices), rest))
}

// What stands after the tag 4: a payload.
#[tactic(auto, unfolding(crate::specs::ItemReading::item_at))]
fn atom_of(alloc: Global, bytes: &[u8]) -> Result<(Item, &[u8]), FlatError>
    ensures { GivesBy no_item_of (λ x. (x.0, x.1.now)) result (item_at (4 ∷ bytes.now)) }
{
    let (payload, rest) = short_text_of(bytes)?;
    match parse_atom(alloc, payload) {
        Ok(atom) => Ok((Item::AtomItem(atom), rest)),
        Err(AtomFault::Bad(_)) => Err(FlatError::Bad),
        Err(AtomFault::Memory) => Err(FlatError::Memory),
    }
}

// What stands after the tag 5: bytes.
#[tactic(auto, unfolding(crate::specs::ItemReading::item_at))]
fn chunk_of(alloc: Global, bytes: &[u8]) -> Result<(Item, &[u8]), FlatError>
    ensures { GivesBy no_item_of (λ x. (x.0, x.1.now)) result (item_at (5 ∷ bytes.now)) }
{
    let (chunk, rest) = long_text_of(bytes)?;
    Ok((Item::Chunk(Seq::from_slice(alloc, chunk)?), rest))
}

/// The item at the front, and the bytes after it.
#[tactic(auto, unfolding(crate::specs::ItemReading::item_at))]
pub(crate) fn item_of(alloc: Global, bytes: &[u8]) -> Result<(Item, &[u8]), FlatError>
    ensures { GivesBy no_item_of (λ x. (x.0, x.1.now)) result (item_at bytes.now) }
{
    let [tag, rest @ ..] = bytes else {
        return Err(FlatError::Bad);
    };
    match *tag {
        1 => num_of(rest),
        2 => dims_of(alloc, rest),
        3 => slices_of(alloc, rest),
        4 => atom_of(alloc, rest),
        5 => chunk_of(alloc, rest),
        _ => Err(FlatError::Bad),
    }
}

/// The items whose spelling the bytes are. `Bad` comes exactly where they are the spelling of none.
pub fn decode_items(alloc: Global, bytes: Bytes) -> Result<Items, FlatError>
    ensures { ReadsItems bytes result }
{
    let spelled = SpelledItems::decode(alloc, bytes.into_vec())?;
    Ok(Items::of(alloc, spelled))
}
