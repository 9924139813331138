//! Items by words.
use atom_record::{Atom, AtomField, Bytes, DimKey, Leaf, Slice, Value};
use flat_form::{Item, Items};
use sd_base::Seq;
use std::alloc::{AllocError, Global};
use test_tools::unsigned;

/// The items of words with a blank between them, or none where a word isn't known.
pub fn items_of(alloc: Global, text: &str) -> Result<Option<Items>, AllocError> {
    let mut items = Items::new(alloc);
    for word in text.split(' ') {
        if word.is_empty() {
            continue;
        }
        let Some(item) = item_of(alloc, word)? else {
            return Ok(None);
        };
        items.push(item)?;
    }
    Ok(Some(items))
}

/// Whether items are those of the words, each at its place, with none after them.
pub fn are_items_of(alloc: Global, items: &Items, text: &str) -> Result<bool, AllocError> {
    let mut place: usize = 0;
    for word in text.split(' ') {
        if word.is_empty() {
            continue;
        }
        if items.at(place)? != item_of(alloc, word)? {
            return Ok(false);
        }
        place = place.saturating_add(1);
    }
    Ok(items.at(place)?.is_none())
}

fn item_of(alloc: Global, word: &str) -> Result<Option<Item>, AllocError> {
    let (kind, rest) = word.split_once(':').unwrap_or((word, ""));
    match kind {
        "num" => Ok(unsigned(rest).map(Item::Num)),
        "key" => key_of(alloc, rest),
        "missing" => missing_of(alloc, rest),
        "plain" => plain_of(alloc, rest),
        "group" => group_of(alloc, rest),
        "atom" => atom_of(alloc, rest),
        "chunk" => chunk_of(alloc, rest),
        _ => Ok(None),
    }
}

/// A key by its leaves, as `int,missing,str.2`.
fn key_of(alloc: Global, text: &str) -> Result<Option<Item>, AllocError> {
    let mut key = DimKey::new(alloc);
    for word in text.split(',') {
        let Some(leaf) = leaf_of(alloc, word)? else {
            return Ok(None);
        };
        key.push(leaf)?;
    }
    Ok(Some(Item::Dims(key)))
}

/// A key of so many leaves, each missing.
fn missing_of(alloc: Global, text: &str) -> Result<Option<Item>, AllocError> {
    let Some(count) = unsigned(text) else {
        return Ok(None);
    };
    let mut key = DimKey::new(alloc);
    for _ in 0..count {
        key.push(Leaf::Missing)?;
    }
    Ok(Some(Item::Dims(key)))
}

fn leaf_of(alloc: Global, word: &str) -> Result<Option<Leaf>, AllocError> {
    if word == "missing" {
        return Ok(Some(Leaf::Missing));
    }
    if let Some(rest) = word.strip_prefix("many.") {
        return many_of(alloc, rest);
    }
    match value_of(alloc, word)? {
        Some(value) => Ok(Some(Leaf::One(value))),
        None => Ok(None),
    }
}

/// A leaf of so many equal values, as `2.str.7`.
fn many_of(alloc: Global, text: &str) -> Result<Option<Leaf>, AllocError> {
    let (count, word) = text.split_once('.').unwrap_or((text, ""));
    let mut values = Seq::new(alloc);
    for _ in 0..unsigned(count).unwrap_or(0) {
        let Some(value) = value_of(alloc, word)? else {
            return Ok(None);
        };
        values.push(value)?;
    }
    Ok(Some(Leaf::Many(values)))
}

/// A value by its kind, and a text or bytes by their number.
fn value_of(alloc: Global, word: &str) -> Result<Option<Value>, AllocError> {
    let (kind, count) = word.split_once('.').unwrap_or((word, ""));
    match kind {
        "int" => Ok(Some(Value::Int(-1))),
        "long" => Ok(Some(Value::Long(-1))),
        "bool" => Ok(Some(Value::Bool(true))),
        "bits" => Ok(Some(Value::Bits32(1))),
        "str" => Ok(Some(Value::Str(filled(alloc, count)?))),
        "raw" => Ok(Some(Value::Raw(filled(alloc, count)?))),
        _ => Ok(None),
    }
}

/// So many bytes.
fn filled(alloc: Global, count: &str) -> Result<Bytes, AllocError> {
    let mut bytes = Seq::new(alloc);
    for _ in 0..unsigned(count).unwrap_or(0) {
        bytes.push(7u8)?;
    }
    Ok(bytes)
}

/// So many slices by a state's value.
fn plain_of(alloc: Global, count: &str) -> Result<Option<Item>, AllocError> {
    let slice = Slice::Plain {
        atom_id: 7,
        value: -1,
    };
    slices_of(alloc, count, slice)
}

/// So many slices by a group.
fn group_of(alloc: Global, count: &str) -> Result<Option<Item>, AllocError> {
    let slice = Slice::Group {
        atom_id: 7,
        group: -1,
    };
    slices_of(alloc, count, slice)
}

fn slices_of(alloc: Global, count: &str, slice: Slice) -> Result<Option<Item>, AllocError> {
    let mut slices = Seq::new(alloc);
    for _ in 0..unsigned(count).unwrap_or(0) {
        slices.push(slice)?;
    }
    Ok(Some(Item::Slices(slices)))
}

fn chunk_of(alloc: Global, count: &str) -> Result<Option<Item>, AllocError> {
    Ok(Some(Item::Chunk(filled(alloc, count)?)))
}

/// An atom by its id and its entries, as `5,1.0.0.0=int`.
fn atom_of(alloc: Global, text: &str) -> Result<Option<Item>, AllocError> {
    let (id, entries) = text.split_once(',').unwrap_or((text, ""));
    let Ok(id) = id.parse::<u32>() else {
        return Ok(None);
    };
    match entries_of(alloc, entries)? {
        Some(fields) => Ok(Some(Item::AtomItem(Atom { id, fields }))),
        None => Ok(None),
    }
}

fn entries_of(alloc: Global, text: &str) -> Result<Option<Seq<AtomField>>, AllocError> {
    let mut fields = Seq::new(alloc);
    for word in text.split(',') {
        if word.is_empty() {
            continue;
        }
        let Some(entry) = entry_of(alloc, word)? else {
            return Ok(None);
        };
        fields.push(entry)?;
    }
    Ok(Some(fields))
}

/// An entry by its field, index, sub and flags, and its value, as `1.0.0.2=str.3`.
fn entry_of(alloc: Global, word: &str) -> Result<Option<AtomField>, AllocError> {
    let (place, value) = word.split_once('=').unwrap_or((word, ""));
    let Some((field, index, sub, flags)) = place_of(place) else {
        return Ok(None);
    };
    match value_of(alloc, value)? {
        Some(value) => Ok(Some(AtomField {
            field,
            index,
            sub,
            flags,
            value,
        })),
        None => Ok(None),
    }
}

fn place_of(text: &str) -> Option<(u8, u8, u8, u8)> {
    let (field, rest) = text.split_once('.')?;
    let (index, rest) = rest.split_once('.')?;
    let (sub, flags) = rest.split_once('.')?;
    Some((
        field.parse::<u8>().ok()?,
        index.parse::<u8>().ok()?,
        sub.parse::<u8>().ok()?,
        flags.parse::<u8>().ok()?,
    ))
}
