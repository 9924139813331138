//! What a link asks for.
use atom_record::{Atom, AtomField, DimKey, Leaf, Value};
use condition_links::{asks_for, bind_atom, bind_key, reads_as};
use config_links::LLink;
use field_select::{FieldSet, LeafPath};
use predicate_state::Bind;
use sd_base::Seq;
use std::alloc::{AllocError, Global};
use std::test::*;

// The leaves of an atom of id 5 at these fields.
fn set(alloc: Global, fields: &[u8]) -> Result<FieldSet, AllocError> {
    let mut leaves = Seq::new(alloc);
    for field in fields {
        leaves.push(LeafPath {
            field: *field,
            position: None,
            sub: 0,
        })?;
    }
    Ok(FieldSet { atom_id: 5, leaves })
}

// A link from these fields to these places.
fn link(alloc: Global, fields: &[u8], places: &[u32]) -> Result<LLink, AllocError> {
    let in_what = set(alloc, fields)?;
    let places = Seq::from_slice(alloc, places)?;
    Ok(LLink {
        predicate: 0,
        in_what,
        places,
    })
}

// An atom of id 5 with these integers.
fn atom(alloc: Global, entries: &[(u8, i32)]) -> Result<Atom, AllocError> {
    let mut fields = Seq::new(alloc);
    for (field, number) in entries {
        fields.push(AtomField {
            field: *field,
            index: 0,
            sub: 0,
            flags: 0,
            value: Value::Int(*number),
        })?;
    }
    Ok(Atom { id: 5, fields })
}

// Whether a bind asks for this at this place.
fn asks(bind: &Bind, place: u32, number: Option<i32>) -> bool {
    let same = match (&bind.value, number) {
        (Leaf::Missing, None) => true,
        (Leaf::One(Value::Int(found)), Some(wanted)) => *found == wanted,
        _ => false,
    };
    same && bind.place == place
}

fn ask(binds: &[Bind], wanted: &[(u32, Option<i32>)]) -> bool {
    let mut same = binds.len() == wanted.len();
    for (bind, (place, number)) in binds.iter().zip(wanted) {
        same &= asks(bind, *place, *number);
    }
    same
}

const WANTED: [(u32, Option<i32>); 3] = [(2, Some(40)), (0, None), (1, Some(20))];

#[test]
fn binds_what_an_atom_has(rt: HostRuntime) -> Result<(), Fail> {
    let link = link(rt.alloc(), &[4, 3, 2], &[2, 0, 1])?;
    let atom = atom(rt.alloc(), &[(1, 10), (2, 20), (4, 40)])?;
    let binds = bind_atom(rt.alloc(), &link, &atom)?;
    assert!(rt; ask(binds.as_slice(), &WANTED));
    Ok(())
}

// A key of these integers, or nothing.
fn key(alloc: Global, numbers: &[Option<i32>]) -> Result<DimKey, AllocError> {
    let mut key = DimKey::new(alloc);
    for number in numbers {
        let leaf = match number {
            Some(number) => Leaf::One(Value::Int(*number)),
            None => Leaf::Missing,
        };
        key.push(leaf)?;
    }
    Ok(key)
}

#[test]
fn binds_what_a_key_has(rt: HostRuntime) -> Result<(), Fail> {
    let link = link(rt.alloc(), &[4, 3, 2], &[2, 0, 1])?;
    let inner = set(rt.alloc(), &[1, 2, 3, 4])?;
    let key = key(rt.alloc(), &[Some(10), Some(20), None, Some(40)])?;
    let binds = bind_key(rt.alloc(), &link, &inner, &key)?;
    assert!(rt; ask(binds.as_slice(), &WANTED));
    Ok(())
}

// Whether a link to the places 1 and 0 asks for a key of these two leaves, for a key whose leaves 3 and 4 are missing
// and 40.
fn asks_for_two(alloc: Global, leaves: &[Option<i32>]) -> Result<bool, AllocError> {
    let link = link(alloc, &[4, 3], &[1, 0])?;
    let inner = set(alloc, &[1, 2, 3, 4])?;
    let asking = key(alloc, &[Some(10), Some(20), None, Some(40)])?;
    let other = key(alloc, leaves)?;
    Ok(asks_for(&link, &inner, &asking, &other))
}

#[test]
fn asks_for_the_key_that_has_each_leaf(rt: HostRuntime) -> Result<(), Fail> {
    assert!(rt; asks_for_two(rt.alloc(), &[None, Some(40)])?);
    assert!(rt; !asks_for_two(rt.alloc(), &[None, Some(41)])?);
    assert!(rt; !asks_for_two(rt.alloc(), &[Some(30), Some(40)])?);
    assert!(rt; !asks_for_two(rt.alloc(), &[Some(40)])?);
    Ok(())
}

// Whether a key whose leaves 3 and 4 are missing and 40 reads as this one at the leaves 4 and 3.
fn reads_as_two(alloc: Global, leaves: &[Option<i32>]) -> Result<bool, AllocError> {
    let inner = set(alloc, &[1, 2, 3, 4])?;
    let reading = key(alloc, &[Some(10), Some(20), None, Some(40)])?;
    let at = set(alloc, &[4, 3])?;
    let read = key(alloc, leaves)?;
    Ok(reads_as(&inner, &reading, &at, &read))
}

#[test]
fn reads_as_the_key_of_its_leaves(rt: HostRuntime) -> Result<(), Fail> {
    assert!(rt; reads_as_two(rt.alloc(), &[Some(40), None])?);
    assert!(rt; !reads_as_two(rt.alloc(), &[Some(41), None])?);
    assert!(rt; !reads_as_two(rt.alloc(), &[Some(40), Some(30)])?);
    assert!(rt; !reads_as_two(rt.alloc(), &[Some(40)])?);
    Ok(())
}
