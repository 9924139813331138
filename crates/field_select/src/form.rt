//! The leaves of a tree of field numbers.
ghost use Rattle.std.specs.Prelude.{◌≡◌, Some, None, IfOk, not, if◌then◌else◌};
ghost use Rattle.std.specs.List.{flat_map, list_all};
ghost use Rattle.field_select.specs.FieldSets.{greatest_field, IsFieldSet, has_repeat};
ghost use Rattle.field_select.specs.WellFormed.{is_number_to, number_or_zero, number_in, greatest_atom_id, is_message_field, is_atom_field, field_leaves, is_well_formed, set_of, GivesForm, AddsLeaves};

use crate::{FieldSet, LeafPath, SelectError};
use config_types::{FieldMatcher, Position};
use indexmap::IndexSet;
use sd_base::Seq;
use std::alloc::{AllocError, Global};

/// The greatest number of a field of an atom or of a message.
const MAX_FIELD: i32 = 127;

/// The leaves of a tree in their order, or that it isn't well-formed.
pub fn field_set(alloc: Global, tree: &FieldMatcher) -> Result<FieldSet, SelectError>
    ensures set { GivesForm result (is_well_formed tree.now) (set_of tree.now) }
    ensures leaves { IfOk result IsFieldSet }
{
    formed_set(alloc, tree)
}

// The same, and the leaves are a set because the tree is well-formed.
fn formed_set(alloc: Global, tree: &FieldMatcher) -> Result<FieldSet, SelectError>
    ensures { GivesForm result (is_well_formed tree.now) (set_of tree.now) }
{
    let Some(atom_id) = atom_id_in(tree.field) else {
        return Err(SelectError::BadForm);
    };
    if tree.position.is_some() {
        return Err(SelectError::BadForm);
    }
    let leaves = leaves_in(alloc, tree.children.as_slice())?;
    if repeats(alloc, leaves.as_slice())? {
        return Err(SelectError::BadForm);
    }
    Ok(FieldSet { atom_id, leaves })
}

// The id of an atom.
fn atom_id_in(number: Option<i32>) -> Option<u32>
    ensures { result ≡
        (if is_number_to greatest_atom_id number then Some (number_or_zero number) else None) }
{
    match number {
        Some(id) if id > 0 => Some(id as u32),
        _ => None,
    }
}

// The number of a field of an atom or of a message.
fn field_in(number: Option<i32>) -> Option<u8>
    ensures { result ≡
        (if is_number_to greatest_field number then Some (number_or_zero number) else None) }
{
    match number {
        Some(field) if field > 0 && field <= MAX_FIELD => Some(field as u8),
        _ => None,
    }
}

// The number of a field of a message, which has neither a position nor children.
fn message_field_in(tree: &FieldMatcher) -> Option<u8>
    ensures { result ≡
        (if is_message_field tree.now then Some (number_or_zero (number_in tree.now)) else None) }
{
    let field = field_in(tree.field)?;
    if tree.position.is_some() || !tree.children.is_empty() {
        return None;
    }
    Some(field)
}

// Adds the leaves at a field of an atom.
fn add_leaves(leaves: &mut Seq<LeafPath>, tree: &FieldMatcher) -> Result<(), SelectError>
    ensures { AddsLeaves result (is_atom_field tree.now) leaves.old (field_leaves tree.now)
        leaves.new }
{
    let Some(field) = field_in(tree.field) else {
        return Err(SelectError::BadForm);
    };
    let position = tree.position;
    if position == Some(Position::Any) {
        return Err(SelectError::BadForm);
    }
    if tree.children.is_empty() {
        leaves.push(LeafPath {
            field,
            position,
            sub: 0,
        })?;
        return Ok(());
    }
    for child in tree.children.as_slice() {
        let Some(sub) = message_field_in(child) else {
            return Err(SelectError::BadForm);
        };
        leaves.push(LeafPath {
            field,
            position,
            sub,
        })?;
    }
    Ok(())
}

// The leaves at the fields of an atom.
fn leaves_in(alloc: Global, trees: &[FieldMatcher]) -> Result<Seq<LeafPath>, SelectError>
    ensures { GivesForm result (list_all is_atom_field trees.now)
        (flat_map field_leaves trees.now) }
{
    let mut leaves = Seq::new(alloc);
    for tree in trees {
        add_leaves(&mut leaves, tree)?;
    }
    Ok(leaves)
}

// Whether a leaf comes twice. Each leaf is looked up once in a table of those before it.
#[tactic(auto, using(crate::proofs::RepeatLemmas::repeat_after_nothing))]
fn repeats(alloc: Global, leaves: &[LeafPath]) -> Result<bool, AllocError>
    ensures { IfOk result (λ found. found ≡ has_repeat leaves.now) }
{
    let mut seen = IndexSet::new(alloc);
    for leaf in leaves {
        if !seen.insert(*leaf)? {
            return Ok(true);
        }
    }
    Ok(false)
}
