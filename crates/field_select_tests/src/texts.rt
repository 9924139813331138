//! Leaves and keys as text.

use atom_record::{Atom, DimKey, Leaf, Value};
use config_types::{FieldMatcher, Position};
use field_select::{FieldSet, LeafPath, SelectError, field_set, leaf_value};
use std::alloc::{AllocError, Global};

/// The leaves that a tree means, as `5: 1 3[ALL].2`, or why it is refused.
pub fn leaves_text(alloc: Global, tree: &FieldMatcher) -> Result<String, AllocError> {
    match field_set(alloc, tree) {
        Ok(set) => set_text(alloc, &set),
        Err(SelectError::Memory) => Err(AllocError),
        Err(error) => format!(in alloc; "{error:?}"),
    }
}

fn set_text(alloc: Global, set: &FieldSet) -> Result<String, AllocError> {
    let atom_id = set.atom_id;
    let mut text = format!(in alloc; "{atom_id}:")?;
    for leaf in set.leaves.as_slice() {
        push_leaf(&mut text, leaf)?;
    }
    Ok(text)
}

fn push_leaf(text: &mut String, leaf: &LeafPath) -> Result<(), AllocError> {
    let (field, position, sub) = (leaf.field, position_text(leaf.position), leaf.sub);
    if sub == 0 {
        return write!(text, " {field}{position}");
    }
    write!(text, " {field}{position}.{sub}")
}

fn position_text(position: Option<Position>) -> &'static str {
    match position {
        None => "",
        Some(Position::First) => "[FIRST]",
        Some(Position::Last) => "[LAST]",
        Some(Position::Any) => "[ANY]",
        Some(Position::All) => "[ALL]",
    }
}

/// The leaves of a key, as `Int(10) - Int(21)+Int(22)`.
pub fn key_text(alloc: Global, key: &DimKey) -> Result<String, AllocError> {
    let mut text = String::new(alloc);
    for place in 0..key.len() {
        push_value(&mut text, key.get(place))?;
    }
    Ok(text)
}

fn push_value(text: &mut String, leaf: Option<&Leaf>) -> Result<(), AllocError> {
    match leaf {
        Some(Leaf::One(value)) => write!(text, "{value:?} "),
        Some(Leaf::Many(values)) => push_values(text, values.as_slice()),
        _ => text.push_str("- "),
    }
}

fn push_values(text: &mut String, values: &[Value]) -> Result<(), AllocError> {
    for value in values {
        write!(text, "{value:?}+")?;
    }
    text.push_str(" ")
}

/// The same of the leaves of a set that are lent, and `all` in place of those that aren't.
pub fn lent_text(alloc: Global, set: &FieldSet, atom: &Atom) -> Result<String, AllocError> {
    let mut text = String::new(alloc);
    for leaf in set.leaves.as_slice() {
        push_lent(&mut text, leaf, atom)?;
    }
    Ok(text)
}

fn push_lent(text: &mut String, leaf: &LeafPath, atom: &Atom) -> Result<(), AllocError> {
    if leaf.position == Some(Position::All) {
        return text.push_str("all ");
    }
    match leaf_value(leaf, atom) {
        Some(value) => write!(text, "{value:?} "),
        None => text.push_str("- "),
    }
}
