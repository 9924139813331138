//! Keys as words: leaves with commas between them, each a number, `-` for none, or numbers with a `+` between them. The
//! key without a leaf is a point.
use atom_record::{DimKey, Leaf, Value};
use predicate_state::{Bind, BindList, PredTable};
use sd_base::Seq;
use std::alloc::{AllocError, Global};

/// The key of a word. What isn't a number is 0.
pub fn key_of(alloc: Global, word: &str) -> Result<DimKey, AllocError> {
    let mut key = DimKey::new(alloc);
    if word == "." {
        return Ok(key);
    }
    for text in word.split(',') {
        key.push(leaf_of(alloc, text)?)?;
    }
    Ok(key)
}

fn leaf_of(alloc: Global, text: &str) -> Result<Leaf, AllocError> {
    if text == "-" {
        return Ok(Leaf::Missing);
    }
    if !text.contains('+') {
        return Ok(Leaf::One(value_of(text)));
    }
    let mut values = Seq::new(alloc);
    for number in text.split('+') {
        values.push(value_of(number))?;
    }
    Ok(Leaf::Many(values))
}

fn value_of(text: &str) -> Value {
    Value::Int(text.parse::<i32>().unwrap_or(0))
}

/// The binds of a word, as `0=1,1=2+3`: places and leaves.
pub fn binds_of(alloc: Global, word: &str) -> Result<BindList, AllocError> {
    let mut binds = Seq::new(alloc);
    if word == "." {
        return Ok(binds);
    }
    for text in word.split(',') {
        binds.push(bind_of(alloc, text)?)?;
    }
    Ok(binds)
}

fn bind_of(alloc: Global, text: &str) -> Result<Bind, AllocError> {
    let (place, leaf) = text.split_once('=').unwrap_or((text, ""));
    let value = leaf_of(alloc, leaf)?;
    Ok(Bind {
        place: place.parse::<u32>().unwrap_or(u32::MAX),
        value,
    })
}

/// The entries of a table and its drops, as `7:1 8:0 dropped 2`.
pub fn table_text(alloc: Global, table: &PredTable) -> Result<String, AllocError> {
    let mut text = String::new(alloc);
    for place in 0..table.len() {
        push_entry(&mut text, table, place)?;
    }
    let dropped = table.dropped();
    write!(text, "dropped {dropped}")?;
    Ok(text)
}

fn push_entry(text: &mut String, table: &PredTable, place: usize) -> Result<(), AllocError> {
    let Some((key, count)) = table.entry(place) else {
        return text.push_str("nothing ");
    };
    push_key(text, key)?;
    write!(text, ":{count} ")
}

fn push_key(text: &mut String, key: &DimKey) -> Result<(), AllocError> {
    for place in 0..key.len() {
        if place > 0 {
            text.push_str(",")?;
        }
        push_leaf(text, key.get(place))?;
    }
    Ok(())
}

fn push_leaf(text: &mut String, leaf: Option<&Leaf>) -> Result<(), AllocError> {
    match leaf {
        Some(Leaf::One(value)) => push_value(text, value),
        Some(Leaf::Many(values)) => push_values(text, values.as_slice()),
        _ => text.push_str("-"),
    }
}

fn push_values(text: &mut String, values: &[Value]) -> Result<(), AllocError> {
    for value in values {
        push_value(text, value)?;
        text.push_str("+")?;
    }
    Ok(())
}

fn push_value(text: &mut String, value: &Value) -> Result<(), AllocError> {
    match value {
        Value::Int(number) => write!(text, "{number}"),
        _ => write!(text, "{value:?}"),
    }
}
