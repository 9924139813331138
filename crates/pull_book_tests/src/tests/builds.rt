//! Pulls with atoms, made from their payloads.
ghost use Rattle.std.specs.Prelude.{IfOk};
ghost use Rattle.pull_book.specs.PullBooks.{IsSnapshotAtom, IsRecordable};

use atom_record::{Atom, AtomFault, PullOutcome, parse_atom};
use sd_base::Seq;
use std::alloc::Global;

// An atom of a pulled id, which tells a level.
fn level_of(alloc: Global, id: u32, level: i32) -> Result<Atom, AtomFault>
    ensures { IfOk result (IsSnapshotAtom id) }
{
    let mut payload = Vec::new(alloc);
    payload.extend_from_slice(&id.to_le_bytes())?;
    payload.extend_from_slice(&[1, 0, 0, 0, 1])?;
    payload.extend_from_slice(&level.cast_unsigned().to_le_bytes())?;
    let atom = parse_atom(alloc, payload.as_slice())?;
    if atom.id != id {
        return Err(AtomFault::Memory);
    }
    Ok(atom)
}

/// A pull that gave an atom for each of these levels.
pub fn pull_of(alloc: Global, id: u32, levels: &[i32]) -> Result<PullOutcome, AtomFault>
    ensures { IfOk result (IsRecordable id) }
{
    let mut atoms = Seq::new(alloc);
    for level in levels {
        atoms.push(level_of(alloc, id, *level)?)?;
    }
    Ok(PullOutcome::Atoms(atoms))
}
