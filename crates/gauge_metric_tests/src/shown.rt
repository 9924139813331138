//! Atoms and keys of the rows, and what a producer hands out, as text.
use atom_record::{Atom, AtomField, DimKey, Leaf, MetricKey, Value};
use gauge_metric::{Closed, Row};
use sd_base::Seq;
use std::alloc::{AllocError, Global};

/// The atom of id 5 whose field 1 is a number.
pub fn atom_of(alloc: Global, number: i32) -> Result<Atom, AllocError> {
    let mut fields = Seq::new(alloc);
    fields.push(AtomField {
        field: 1,
        index: 0,
        sub: 0,
        flags: 0,
        value: Value::Int(number),
    })?;
    Ok(Atom { id: 5, fields })
}

/// The key with one number.
pub fn key_of(alloc: Global, number: i32) -> Result<MetricKey, AllocError> {
    let mut dims = DimKey::new(alloc);
    dims.push(Leaf::One(Value::Int(number)))?;
    Ok(MetricKey {
        dims,
        slices: Seq::new(alloc),
    })
}

/// The rows and what isn't among them, as `1:0..10=7,8 others 0 drops 2`: keys, starts, ends and the atoms' numbers.
pub fn closed_text(alloc: Global, closed: &Closed<Seq<Atom>>) -> Result<String, AllocError> {
    let mut text = String::new(alloc);
    for row in closed.rows.as_slice() {
        push_row(&mut text, row)?;
    }
    let (others, drops, missing) = (closed.not_kept, closed.dropped, closed.missing);
    write!(text, "others {others} drops {drops}")?;
    if missing > 0 {
        write!(text, " missing {missing}")?;
    }
    Ok(text)
}

fn push_row(text: &mut String, row: &Row<Seq<Atom>>) -> Result<(), AllocError> {
    push_key(text, &row.key)?;
    let (start, end) = (row.start, row.end);
    write!(text, ":{start}..{end}")?;
    let mut mark = "=";
    for atom in row.value.as_slice() {
        text.push_str(mark)?;
        push_atom(text, atom)?;
        mark = ",";
    }
    text.push_str(" ")
}

/// Puts the number of a key that has one and nothing else, or `-` for the key that has nothing.
fn push_key(text: &mut String, key: &MetricKey) -> Result<(), AllocError> {
    match (key.dims.len(), key.dims.get(0), key.slices.is_empty()) {
        (0, None, true) => text.push_str("-"),
        (1, Some(Leaf::One(Value::Int(number))), true) => write!(text, "{number}"),
        _ => text.push_str("another key"),
    }
}

/// Puts the number of an atom that is one of the rows'.
fn push_atom(text: &mut String, atom: &Atom) -> Result<(), AllocError> {
    match (atom.id, atom.fields.as_slice()) {
        (5, [entry]) => push_number(text, entry),
        _ => text.push_str("another atom"),
    }
}

fn push_number(text: &mut String, entry: &AtomField) -> Result<(), AllocError> {
    match &entry.value {
        Value::Int(number) => write!(text, "{number}"),
        _ => text.push_str("another value"),
    }
}
