//! Copies of values and of atoms.
use super::super::asserts::assert_found;
use super::keys::values;
use super::payloads::{EACH_KIND, filled};
use atom_record::{Atom, Value, parse_atom};
use std::alloc::{AllocError, Global};

/// Whether this value equals the one at this place of the list, and no other one.
fn equals_one(value: &Value, values: &[Value], place: usize) -> bool {
    for (at, other) in values.iter().enumerate() {
        if (*value == *other) != (at == place) {
            return false;
        }
    }
    true
}

/// Whether the value at this place of the list is copied whole, and the copy equals no other one of the list.
fn is_value_copied(alloc: Global, values: &[Value], place: usize) -> Result<bool, AllocError> {
    match values.get(place) {
        Some(value) => {
            let copy = value.clone_value(alloc)?;
            Ok(equals_one(&copy, values, place))
        }
        None => Ok(false),
    }
}

/// Whether there are six values, and each is copied whole and equals no other one.
fn are_copied(alloc: Global, values: &[Value]) -> bool {
    let mut all = values.len() == 6;
    for place in 0..6 {
        all &= is_value_copied(alloc, values, place) == Ok(true);
    }
    all
}

/// Whether there are six values with this text, and each is copied whole.
fn are_six_copied(alloc: Global, text: &[u8]) -> Result<bool, AllocError> {
    let values = values(alloc, text)?;
    Ok(are_copied(alloc, values.as_slice()))
}

/// Whether values with texts of this length are copied whole.
fn are_long_ones_copied(alloc: Global, len: usize) -> Result<bool, AllocError> {
    let text = filled(alloc, b"", len)?;
    are_six_copied(alloc, &text)
}

#[test]
fn copies_of_values_equal_their_sources(rt: HostRuntime) {
    assert_found(&rt, are_six_copied(rt.alloc(), b"a"), &"six");
    // One byte more than a payload could spell.
    assert_found(&rt, are_long_ones_copied(rt.alloc(), 65_536), &"long ones");
}

/// Whether an atom is copied whole.
fn is_atom_copied(alloc: Global, atom: &Atom) -> Result<bool, AllocError> {
    let copy = atom.clone_atom(alloc)?;
    Ok(copy == *atom)
}

/// Whether a payload is read, and the atom copied whole.
fn is_copied(alloc: Global, payload: &[u8]) -> bool {
    match parse_atom(alloc, payload) {
        Ok(atom) => is_atom_copied(alloc, &atom) == Ok(true),
        Err(_) => false,
    }
}

/// Adds an entry with a Bool for each place of the fields 1 to 6.
fn push_entries(payload: &mut Vec<u8>) -> Result<(), AllocError> {
    for field in 1..7u8 {
        for index in 0..128u8 {
            payload.extend_from_slice(&[field, index, 0, 0, 3, 1])?;
        }
    }
    payload.truncate(4096);
    Ok(())
}

/// Whether the atom with the most entries is copied whole: 682 of them, each with a field, an index and a Bool, fill
/// 4,096 bytes.
fn are_entries_copied(alloc: Global) -> Result<bool, AllocError> {
    let mut payload = Vec::from_slice(alloc, b"\x05\0\0\0")?;
    push_entries(&mut payload)?;
    Ok(payload.len() == 4096 && is_copied(alloc, &payload))
}

/// Whether the atom with the longest text is copied whole.
fn is_text_copied(alloc: Global) -> Result<bool, AllocError> {
    let payload = filled(alloc, b"\x05\0\0\0\x01\0\0\0\x04\xf5\x0f", 4096)?;
    Ok(is_copied(alloc, &payload))
}

#[test]
fn copies_of_atoms_equal_their_sources(rt: HostRuntime) {
    assert!(rt; is_copied(rt.alloc(), b"\x05\0\0\0"));
    assert!(rt; is_copied(rt.alloc(), EACH_KIND));
    assert_found(&rt, is_text_copied(rt.alloc()), &"a text");
    assert_found(&rt, are_entries_copied(rt.alloc()), &"entries");
}
