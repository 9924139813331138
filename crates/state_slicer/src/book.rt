//! The states that the log last gave, for the first ids of state atoms that come.
ghost use Rattle.std.specs.Prelude.{◌≡◌, ◌≢◌, ◌<◌, ◌≤◌, ℕ, true, false, List, [], length, All, AllPairs, slice_get, Some, IfSome, IfNone, Contains, IsOk, OnOk, OnErr};
ghost use Rattle.dim_table.specs.Table.{keys};
ghost use Rattle.bucket_meaning.specs.Kept.{count_in_u64};
ghost use Rattle.book_meaning.specs.BookLimits.{most_state_ids};
ghost use Rattle.book_meaning.specs.States.{state_value, state_drops, dropped_state_atoms, state_atom_ids, tells_state, puts_back};

use crate::states::IdStates;
use crate::told::{UNKNOWN, has_state};
use atom_record::{Atom, DimKey};
use dim_table::Guarded;
use std::alloc::{AllocError, Global};
use std::marker::Model;

/// The most ids of state atoms that a book keeps.
pub const MAX_IDS: usize = 256;

/// For each of the first ids of state atoms, the state that was last told for each of its first keys.
#[derive(Drop)]
pub struct StateBook {
    pub(crate) ids: Guarded<u64, IdStates>,
    pub(crate) alloc: Global,
}

impl Model for StateBook {
    ghost use Rattle.std.specs.Prelude.{◌≡◌, ℕ, ℤ, List};
    ghost use Rattle.atom_record.specs.declared.value.Leaf.{Leaf};
    ghost use Rattle.dim_table.specs.Table.{Table};
    ghost use Rattle.state_slicer.specs.StateItems.{IsStateTable};

    ghost Value = { Table ℕ (Table (List Leaf) ℤ) };

    ghost view = { λ b. b.ids };

    ghost invariant = { λ b. IsStateTable b.ids };
}

impl StateBook {
    ghost use Rattle.state_slicer.specs.StateBooks.{StateBookStandsFor, BookAnswers, AppliesAtom, BookTakes, IsTakenAt, IsTakenFirst, IsAtId, IsStateIn, AreDropsIn};

    /// A book with no state. It takes no memory yet.
    pub fn new(alloc: Global) -> StateBook
        ensures stands { StateBookStandsFor result [] }
    {
        StateBook {
            ids: Guarded::new(alloc, MAX_IDS),
            alloc,
        }
    }

    /// Takes an atom. One without an exclusive entry changes nothing.
    pub fn apply(&mut self, atom: &Atom) -> Result<(), AllocError>
        ensures stands { OnOk result (AppliesAtom self.old self.new atom.now) }
        ensures state { OnOk result (BookTakes self.old self.new atom.now) }

        // An atom that tells no state asks for no memory, nor does one of a new id that finds no room, or one that puts
        // the states of its id back.
        ensures no_state { tells_state atom.now ≡ false → IsOk result }
        ensures full { (¬ Contains (keys self.old) atom.now.id)
            → length self.old.rows ≡ most_state_ids → IsOk result }
        ensures reset { Contains (keys self.old) atom.now.id
            → puts_back atom.now ≡ true → IsOk result }
        ensures err { OnErr result (self.new ≡ self.old) }
    {
        if !has_state(atom) {
            return Ok(());
        }
        match self.ids.place_of(&u64::from(atom.id)) {
            Some(place) => self.tell_at(place, atom),
            None => self.tell_first(atom),
        }
    }

    // Takes a state atom of the id at a place.
    fn tell_at(&mut self, place: usize, atom: &Atom) -> Result<(), AllocError>
        requires there { slice_get (keys self.old) place ≡ Some atom.now.id }
        ensures taken { OnOk result (IsTakenAt self.old self.new place atom.now) }
        ensures reset { puts_back atom.now ≡ true → IsOk result }
        ensures err { OnErr result (self.new ≡ self.old) }
    {
        let alloc = self.alloc;
        let Some(states) = self.ids.value_at(place) else {
            return Ok(());
        };
        states.take(alloc, atom)
    }

    // Takes the first state atom of an id, which gets a place if there is room.
    fn tell_first(&mut self, atom: &Atom) -> Result<(), AllocError>
        requires absent { ¬ Contains (keys self.old) atom.now.id }
        ensures taken { OnOk result (IsTakenFirst self.old self.new atom.now) }
        ensures full { length self.old.rows ≡ most_state_ids → IsOk result }
        ensures err { OnErr result (self.new ≡ self.old) }
    {
        let mut states = IdStates::new(self.alloc);
        if self.ids.len() == MAX_IDS {
            let _full = self.ids.admit(u64::from(atom.id), states)?;
            return Ok(());
        }
        states.take(self.alloc, atom)?;
        let _place = self.ids.admit(u64::from(atom.id), states)?;
        Ok(())
    }

    /// The state that the log last gave a key of an id, or -1 where it gave none since the last reset.
    pub fn value(&self, atom_id: u32, key: &DimKey) -> i32
        ensures answers { BookAnswers self.now result (state_value atom_id key.now) }
        ensures state { IsStateIn self.now atom_id key.now result }
    {
        let Some(states) = self.states_of(atom_id) else {
            return UNKNOWN;
        };
        states.value(key)
    }

    /// How many state atoms of an id of the book have had a key that finds no room. The count stands still at the end
    /// of its type.
    pub fn dropped(&self, atom_id: u32) -> u64
        ensures answers { BookAnswers self.now result
            (λ frames. count_in_u64 (state_drops atom_id frames)) }
        ensures drops { AreDropsIn self.now atom_id result }
    {
        let Some(states) = self.states_of(atom_id) else {
            return 0;
        };
        states.drops()
    }

    /// How many state atoms have had an id that finds no room. The count stands still at the end of its type.
    pub fn dropped_atoms(&self) -> u64
        ensures answers { BookAnswers self.now result
            (λ frames. count_in_u64 (dropped_state_atoms frames)) }
        ensures drops { result ≡ self.now.dropped }
    {
        self.ids.dropped()
    }

    /// The number of ids.
    pub fn atoms(&self) -> usize
        ensures answers { BookAnswers self.now result
            (λ frames. length (state_atom_ids frames)) }
        ensures most { result ≤ most_state_ids }
        ensures value { result ≡ length self.now.rows }
        ensures distinct { AllPairs (λ one other. one ≢ other) (keys self.now) }
    {
        self.ids.len()
    }

    // The states of an id of the book.
    fn states_of(&self, atom_id: u32) -> Option<&IdStates>
        ensures there { IfSome result (λ states. IsAtId self.now atom_id states.now) }
        ensures absent { IfNone result (¬ Contains (keys self.now) atom_id) }
    {
        let Some(place) = self.ids.place_of(&u64::from(atom_id)) else {
            return None;
        };
        let Some((_id, states)) = self.ids.pair(place) else {
            return None;
        };
        Some(states)
    }
}
