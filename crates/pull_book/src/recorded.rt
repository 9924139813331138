//! What the last pull of an id gave, as it stands in a book.
ghost use Rattle.std.specs.Prelude.{◌≡◌, ◌↔◌, IsTrue};
ghost use Rattle.std.specs.Option.{option_map};
ghost use Rattle.book_meaning.specs.Snapshots.{atoms_in};
ghost use Rattle.pull_book.specs.PullBooks.{IsRecordable};
ghost use Rattle.pull_book.specs.PullItems.{HoldsSoundAtoms};

use atom_record::{Atom, PullOutcome};
use std::marker::Model;

/// What the last pull of an id gave. Its atoms have no fault.
#[derive(Drop)]
pub struct Recorded {
    outcome: PullOutcome,
}

impl Model for Recorded {
    ghost use Rattle.atom_record.specs.declared.log.PullOutcome.{PullOutcome};
    ghost use Rattle.pull_book.specs.PullItems.{HoldsSoundAtoms};

    ghost Value = { PullOutcome };

    ghost view = { λ r. r.outcome };

    ghost invariant = { λ r. HoldsSoundAtoms r.outcome };
}

impl Recorded {
    /// This outcome, moved.
    pub fn new(outcome: PullOutcome) -> Recorded
        requires sound { HoldsSoundAtoms outcome }
        ensures { result ≡ outcome }
    {
        Recorded { outcome }
    }

    /// The atoms of the snapshot, or none where the pull failed.
    pub fn atoms(&self) -> Option<&[Atom]>
        ensures { option_map (λ s. s.now) result ≡ atoms_in self.now }
    {
        match &self.outcome {
            PullOutcome::Atoms(atoms) => Some(atoms.as_slice()),
            PullOutcome::Failed => None,
        }
    }

    /// Whether a pull of this id may give it: each atom has the id.
    pub fn is_of(&self, id: u32) -> bool
        ensures { IsTrue result ↔ IsRecordable id self.now }
    {
        match &self.outcome {
            PullOutcome::Atoms(atoms) => atoms.as_slice().iter().all(|atom| atom.id == id),
            PullOutcome::Failed => true,
        }
    }

    /// The outcome, to read.
    pub fn outcome(&self) -> &PullOutcome
        ensures is { result.now ≡ self.now }
        ensures sound { HoldsSoundAtoms self.now }
    {
        &self.outcome
    }
}
