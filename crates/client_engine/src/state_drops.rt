//! What a report shows of states that found no room.
ghost use Rattle.std.specs.Prelude.{◌≡◌, ◌++◌, ◌∷◌, [], ℕ, map, OnOk, IfOk, IsTrue};
ghost use Rattle.std.specs.List.{flat_map};
ghost use Rattle.bucket_meaning.specs.Guard.{is_among, with_key};
ghost use Rattle.book_meaning.specs.Snapshots.{same_atom_id};
ghost use Rattle.metric_meaning.specs.StateDrops.{told_ids, drop_of_id, drops_of_states, dropped_for};
ghost use Rattle.client_engine.specs.Handed.{OnLog};

use config_links::LState;
use known_conditions::add_if_any;
use report_writer::Drop64;
use sd_base::Seq;
use state_slicer::StateBook;
use std::alloc::{AllocError, Global};

/// How often a key found no room, for each atom that tells one of these states, where that is so.
pub fn state_drops(
    alloc: Global,
    states: &[LState],
    book: &StateBook,
) -> Result<Seq<Drop64>, AllocError>
    ensures { OnLog book.now (λ log. IfOk result (λ drops. drops ≡ drops_of_states states.now log)) }
{
    let ids = ids_of(alloc, states)?;
    drops_of_ids(alloc, ids.as_slice(), book)
}

// The same for each of these atoms.
fn drops_of_ids(alloc: Global, ids: &[u32], book: &StateBook) -> Result<Seq<Drop64>, AllocError>
    ensures { OnLog book.now (λ log. IfOk result (λ drops. drops ≡ flat_map (drop_of_id log) ids.now)) }
{
    let mut drops = Seq::new(alloc);
    for id in ids {
        let drop = Drop64 {
            id: i64::from(*id),
            number: book.dropped(*id),
        };
        add_if_any(&mut drops, drop)?;
    }
    Ok(drops)
}

// The different atoms that tell these states, in the order in which they first come.
fn ids_of(alloc: Global, states: &[LState]) -> Result<Vec<u32>, AllocError>
    ensures { IfOk result (λ ids. ids.items ≡ told_ids states.now) }
{
    let mut ids = Vec::new(alloc);
    for state in states {
        add_id(&mut ids, state.atom_id)?;
    }
    Ok(ids)
}

// Adds an id that isn't there.
fn add_id(ids: &mut Vec<u32>, id: u32) -> Result<(), AllocError>
    ensures { OnOk result (ids.new.items ≡ with_key same_atom_id ids.old.items id) }
{
    if has_id(ids.as_slice(), id) {
        return Ok(());
    }
    ids.push(id)?;
    Ok(())
}

// Whether an id is there.
fn has_id(ids: &[u32], id: u32) -> bool
    ensures { result ≡ is_among same_atom_id id ids.now }
{
    ids.iter().any(|other| *other == id)
}

/// How many state atoms found no room for their id. Without states nothing is shown.
pub fn dropped_atoms(states: &[LState], book: &StateBook) -> u64
    ensures { OnLog book.now (λ log. result ≡ dropped_for states.now log) }
{
    if states.is_empty() {
        return 0;
    }
    book.dropped_atoms()
}
