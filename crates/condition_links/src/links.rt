//! What a link asks of its predicate.
ghost use Rattle.std.specs.Prelude.{◌≡◌, [], ◌∷◌, IfOk, OnOk, IfSome, length, slice_get, position, map};
ghost use Rattle.std.specs.Option.{option_copied};
ghost use Rattle.atom_record.specs.declared.value.Leaf.TheVariants.{One};
ghost use Rattle.field_select.specs.FieldSets.{same_leaf};
ghost use Rattle.field_select.specs.LeafValues.{key_of};
ghost use Rattle.condition_links.specs.LinkBinds.{key_values_at, binds_of, binds_for_key, with_next, leaf_or_missing, value_at_leaf};

use atom_record::{Atom, DimKey, Leaf, Value};
use config_links::LLink;
use distinct::Distinct;
use field_select::{FieldSet, LeafPath, key_of};
use predicate_state::{Bind, BindList};
use sd_base::{Duplicate, Seq};
use std::alloc::{AllocError, Global};

// So many leaves are looked through faster than a table is made of them.
const FEW: usize = 16;

/// What a link asks of its predicate for an atom that is counted.
pub fn bind_atom(alloc: Global, link: &LLink, atom: &Atom) -> Result<BindList, AllocError>
    ensures { IfOk result (λ binds.
        binds ≡ binds_of link.now.places (key_of link.now.in_what atom.now)) }
{
    let mut binds = Seq::new(alloc);
    bind_atom_into(alloc, link, atom, &mut binds)?;
    Ok(binds)
}

/// The same, in the room of other binds, of which nothing is left.
pub fn bind_atom_into(
    alloc: Global,
    link: &LLink,
    atom: &Atom,
    binds: &mut BindList,
) -> Result<(), AllocError>
    ensures { OnOk result
        (binds.new ≡ binds_of link.now.places (key_of link.now.in_what atom.now)) }
{
    let key = key_of(alloc, &link.in_what, atom)?;
    bind_places(link.places.as_slice(), key, binds)
}

/// What a link asks of its predicate for a key of another predicate, whose values are those of the leaves of `inner`.
pub fn bind_key(
    alloc: Global,
    link: &LLink,
    inner: &FieldSet,
    key: &DimKey,
) -> Result<BindList, AllocError>
    ensures { IfOk result (λ binds.
        binds ≡ binds_for_key link.now inner.now key.now) }
{
    let mut binds = Seq::new(alloc);
    bind_key_into(alloc, link, inner, key, &mut binds)?;
    Ok(binds)
}

/// The same, in the room of other binds, of which nothing is left.
pub fn bind_key_into(
    alloc: Global,
    link: &LLink,
    inner: &FieldSet,
    key: &DimKey,
    binds: &mut BindList,
) -> Result<(), AllocError>
    ensures { OnOk result
        (binds.new ≡ binds_for_key link.now inner.now key.now) }
{
    let leaves = inner.leaves.as_slice();
    let table = table_of(alloc, leaves)?;
    let others = link.in_what.leaves.as_slice();
    bind_values_at(
        alloc,
        leaves,
        &table,
        key,
        others,
        link.places.as_slice(),
        binds,
    )
}

// Each place with the value that has its turn: those that a key of some leaves has at others.
fn bind_values_at(
    alloc: Global,
    leaves: &[LeafPath],
    table: &Option<Distinct<LeafPath>>,
    values: &DimKey,
    others: &[LeafPath],
    places: &[u32],
    binds: &mut BindList,
) -> Result<(), AllocError>
    requires { IfSome table.now (λ those. those ≡ leaves.now) }
    ensures { OnOk result (binds.new
        ≡ binds_of places.now (map (value_at_leaf leaves.now values.now) others.now)) }
{
    binds.clear();
    for leaf in others {
        let value = read_value(alloc, leaves, table, values, leaf)?;
        bind_next(binds, places, value)?;
    }
    Ok(())
}

/// The values that a key has at the leaves of a set, where the key's values are those of the leaves of `inner`.
pub fn read_key(
    alloc: Global,
    inner: &FieldSet,
    key: &DimKey,
    set: &FieldSet,
) -> Result<DimKey, AllocError>
    ensures { IfOk result (λ values. values ≡ key_values_at inner.now key.now set.now) }
{
    let mut values = DimKey::new(alloc);
    read_key_into(alloc, inner, key, set, &mut values)?;
    Ok(values)
}

/// The same, in the room of another key, of which nothing is left. A number is written over the number that stood
/// there.
pub fn read_key_into(
    alloc: Global,
    inner: &FieldSet,
    key: &DimKey,
    set: &FieldSet,
    values: &mut DimKey,
) -> Result<(), AllocError>
    ensures { OnOk result (values.new ≡ key_values_at inner.now key.now set.now) }
{
    if let Some(value) = only_value(inner, key, set)
        && values.set_number(value)
    {
        return Ok(());
    }
    let leaves = inner.leaves.as_slice();
    let table = table_of(alloc, leaves)?;
    values_at(alloc, leaves, &table, key, set.leaves.as_slice(), values)
}

// The value that a key has at the one leaf of a set, if the set has one, and the key one value there.
fn only_value<'a>(inner: &FieldSet, key: &'a DimKey, set: &FieldSet) -> Option<&'a Value>
    ensures { IfSome result (λ value.
        key_values_at inner.now key.now set.now ≡ One value.now ∷ []) }
{
    let others = set.leaves.as_slice();
    if others.len() != 1 {
        return None;
    }
    one_value(inner.leaves.as_slice(), key, &others[0])
}

// The value that a key of some leaves has at one of them, if it has one value there.
fn one_value<'a>(leaves: &[LeafPath], key: &'a DimKey, leaf: &LeafPath) -> Option<&'a Value>
    ensures { IfSome result (λ value. value_at_leaf leaves.now key.now leaf.now ≡ One value.now) }
{
    let place = first_place(leaves, leaf)?;
    match key.get(place)? {
        Leaf::One(value) => Some(value),
        _ => None,
    }
}

// The values that a key of some leaves has at others, in the room of another key.
fn values_at(
    alloc: Global,
    leaves: &[LeafPath],
    table: &Option<Distinct<LeafPath>>,
    values: &DimKey,
    others: &[LeafPath],
    key: &mut DimKey,
) -> Result<(), AllocError>
    requires { IfSome table.now (λ those. those ≡ leaves.now) }
    ensures { OnOk result
        (key.new ≡ map (λ leaf. value_at_leaf leaves.now values.now leaf) others.now) }
{
    key.clear();
    for leaf in others {
        let value = read_value(alloc, leaves, table, values, leaf)?;
        key.push(value)?;
    }
    Ok(())
}

// The leaves as a table, by which each is found in one step; none where they are few, or where one comes twice.
fn table_of(alloc: Global, leaves: &[LeafPath]) -> Result<Option<Distinct<LeafPath>>, AllocError>
    ensures { IfOk result (λ table. IfSome table (λ those. those ≡ leaves.now)) }
{
    if leaves.len() <= FEW {
        return Ok(None);
    }
    let mut table = Distinct::new(alloc);
    for leaf in leaves {
        if !table.add(*leaf)? {
            return Ok(None);
        }
    }
    Ok(Some(table))
}

// Each place with the value that has its turn, in the room of other binds.
fn bind_places(places: &[u32], values: DimKey, binds: &mut BindList) -> Result<(), AllocError>
    ensures { OnOk result (binds.new ≡ binds_of places.now values) }
{
    binds.clear();
    for value in values.into_leaves() {
        bind_next(binds, places, value)?;
    }
    Ok(())
}

// Binds the place that comes next, if there is one.
fn bind_next(binds: &mut BindList, places: &[u32], value: Leaf) -> Result<(), AllocError>
    ensures { OnOk result
        (binds.new ≡ with_next (slice_get places.now (length binds.old)) value binds.old) }
{
    match places.get(binds.len()) {
        Some(place) => binds.push(Bind {
            place: *place,
            value,
        }),
        None => Ok(()),
    }
}

// The first place at which a leaf stands.
fn place_of(
    leaves: &[LeafPath],
    table: &Option<Distinct<LeafPath>>,
    leaf: &LeafPath,
) -> Option<usize>
    requires { IfSome table.now (λ those. those ≡ leaves.now) }
    ensures { result ≡ position (λ other. same_leaf other leaf.now) leaves.now }
{
    match table {
        Some(table) => table.place(leaf),
        None => first_place(leaves, leaf),
    }
}

/// The same, by a search from the first leaf on.
pub(crate) fn first_place(leaves: &[LeafPath], leaf: &LeafPath) -> Option<usize>
    ensures { result ≡ position (λ other. same_leaf other leaf.now) leaves.now }
{
    leaves.iter().position(|other| *other == *leaf)
}

// A copy of what was found.
fn copy_of(alloc: Global, found: Option<&Leaf>) -> Result<Leaf, AllocError>
    ensures { IfOk result (λ copy. copy ≡ leaf_or_missing (option_copied found.entry)) }
{
    match found {
        Some(leaf) => leaf.duplicate(alloc),
        None => Ok(Leaf::Missing),
    }
}

// The value that a key has at a leaf.
fn read_value(
    alloc: Global,
    leaves: &[LeafPath],
    table: &Option<Distinct<LeafPath>>,
    values: &DimKey,
    leaf: &LeafPath,
) -> Result<Leaf, AllocError>
    requires { IfSome table.now (λ those. those ≡ leaves.now) }
    ensures { IfOk result (λ value. value ≡ value_at_leaf leaves.now values.now leaf.now) }
{
    match place_of(leaves, table, leaf) {
        Some(place) => copy_of(alloc, values.get(place)),
        None => Ok(Leaf::Missing),
    }
}
