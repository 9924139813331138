//! An atom with the entries that the leaves of a set pick.
ghost use Rattle.std.specs.Prelude.{◌≡◌, filter, IfOk};
ghost use Rattle.std.specs.List.{list_any};
ghost use Rattle.field_select.specs.LeafValues.{filtered, some_leaf_picks};
ghost use Rattle.field_select.specs.FieldEnds.{picks_by_ends, picks_index_by};

use crate::ends::{End, ends_of};
use crate::{FieldSet, LeafPath};
use atom_record::{Atom, AtomField};
use config_types::Position;
use sd_base::{Duplicate, Seq};
use std::alloc::{AllocError, Global};

/// The atom with the entries that some leaf picks, in their order. An atom of another id keeps none.
pub fn filter(alloc: Global, set: &FieldSet, atom: &Atom) -> Result<Atom, AllocError>
    ensures { IfOk result (λ kept. kept ≡ filtered set.now atom.now) }
{
    if atom.id != set.atom_id {
        let fields = Seq::new(alloc);
        return Ok(Atom {
            id: atom.id,
            fields,
        });
    }
    let fields = picked_entries(alloc, set.leaves.as_slice(), atom.fields.as_slice())?;
    Ok(Atom {
        id: atom.id,
        fields,
    })
}

// The entries that some leaf picks. The ends of all fields are found first, so each leaf reads an entry once.
fn picked_entries(
    alloc: Global,
    leaves: &[LeafPath],
    entries: &[AtomField],
) -> Result<Seq<AtomField>, AllocError>
    ensures { IfOk result (λ kept.
        kept ≡ filter (some_leaf_picks leaves.now entries.now) entries.now) }
{
    let first = ends_of(End::First, entries);
    let last = ends_of(End::Last, entries);
    let mut kept = Seq::new(alloc);
    for entry in entries {
        let field = entry.field as usize;
        if some_picks(leaves, entry, first[field], last[field]) {
            kept.push(entry.duplicate(alloc)?)?;
        }
    }
    Ok(kept)
}

// Whether some leaf picks an entry of a field with these ends.
fn some_picks(leaves: &[LeafPath], entry: &AtomField, first: u8, last: u8) -> bool
    ensures { result ≡ list_any (λ leaf. picks_by_ends leaf entry.now first last) leaves.now }
{
    for leaf in leaves {
        if picks(leaf, entry, first, last) {
            return true;
        }
    }
    false
}

// Whether a leaf picks an entry of a field with these ends.
fn picks(leaf: &LeafPath, entry: &AtomField, first: u8, last: u8) -> bool
    ensures { result ≡ picks_by_ends leaf.now entry.now first last }
{
    if entry.field != leaf.field || entry.sub != leaf.sub {
        return false;
    }
    match leaf.position {
        None => entry.index == 0,
        Some(Position::First) => entry.index > 0 && entry.index == first,
        Some(Position::Last) => entry.index > 0 && entry.index == last,
        Some(Position::Any | Position::All) => entry.index > 0,
    }
}
