//! The last snapshot of each pulled id, for the first ids that come.
ghost use Rattle.std.specs.Prelude.{◌≡◌, ◌<◌, ◌≤◌, ◌⊎◌, ◌↔◌, ℕ, List, [], length, slice_get, Some, All, AllPairs, ◌≢◌, Contains, IsOk, IsTrue, IfSome, OnOk, OnErr};
ghost use Rattle.std.specs.Map.{keys_of};
ghost use Rattle.std.specs.Option.{option_map};
ghost use Rattle.indexmap.specs.Layout.{set_value_at};
ghost use Rattle.atom_record.specs.declared.log.LogFrame.{LogFrame};
ghost use Rattle.atom_record.specs.Pulled.{IsPulled, is_pull_id};
ghost use Rattle.book_meaning.specs.BookLimits.{most_pulled_ids};
ghost use Rattle.book_meaning.specs.Snapshots.{snapshot_of, is_kept_next};

use crate::recorded::Recorded;
use atom_record::{Atom, PullOutcome, is_pulled};
use dim_table::Guarded;
use std::alloc::{AllocError, Global};
use std::marker::Model;

/// The most pulled ids that a book keeps.
pub const MAX_IDS: usize = 256;

/// What the last pull of each id gave, for the first pulled ids that came. The ids of later ones have no snapshot.
#[derive(Drop)]
pub struct PullBook {
    pub(crate) table: Guarded<u64, Recorded>,
}

impl Model for PullBook {
    ghost use Rattle.std.specs.Prelude.{ℕ, List};
    ghost use Rattle.atom_record.specs.declared.log.PullOutcome.{PullOutcome};
    ghost use Rattle.pull_book.specs.PullBooks.{IsPullTable};

    ghost Value = { List (ℕ × PullOutcome) };

    ghost view = { λ b. b.table.rows };

    ghost invariant = { λ b. IsPullTable b.table };
}

impl PullBook {
    ghost use Rattle.pull_book.specs.PullBooks.{IsAppended, IsKeptRow, IsRecordable, IsSnapshotAtom, PullBookStandsFor, TakesPull};

    /// A book with no snapshot. It takes no memory yet.
    pub fn new(alloc: Global) -> PullBook
        ensures empty { result ≡ [] }
        ensures stands { PullBookStandsFor result [] }
    {
        PullBook {
            table: Guarded::new(alloc, MAX_IDS),
        }
    }

    /// Takes what a pull gave as the snapshot of its id, if the id is kept. A failed pull leaves the id without a
    /// snapshot, and takes a place too.
    pub fn set(&mut self, id: u32, outcome: PullOutcome) -> Result<(), AllocError>
        requires recordable { IsRecordable id outcome }
        ensures stands { OnOk result (TakesPull self.old self.new id outcome) }

        // Only an id that gets a place asks for memory.
        ensures present { Contains (keys_of self.old) id → IsOk result }
        ensures full { length self.old ≡ most_pulled_ids → IsOk result }
        ensures not_pulled { (¬ IsPulled id) → IsOk result }
        ensures err { OnErr result (self.new ≡ self.old) }
    {
        if !is_pulled(id) {
            return Ok(());
        }
        match self.table.place_of(&u64::from(id)) {
            Some(place) => {
                self.replace(id, place, Recorded::new(outcome));
                Ok(())
            }
            None => self.append(id, Recorded::new(outcome)),
        }
    }

    // Writes what a pull gave over what the last pull of its id gave.
    fn replace(&mut self, id: u32, place: usize, recorded: Recorded)
        requires pulled { IsPulled id }
        requires there { slice_get (keys_of self.old) place ≡ Some id }
        requires recordable { IsRecordable id recorded }
        ensures { self.new ≡ set_value_at self.old place recorded }
    {
        let Some(last) = self.table.value_at(place) else {
            return;
        };
        *last = recorded;
    }

    // Gives a new id a place with what its pull gave, if there is room.
    fn append(&mut self, id: u32, recorded: Recorded) -> Result<(), AllocError>
        requires pulled { IsPulled id }
        requires absent { ¬ Contains (keys_of self.old) id }
        requires recordable { IsRecordable id recorded }
        ensures kept { OnOk result (IsAppended self.old self.new id recorded) }
        ensures full { length self.old ≡ most_pulled_ids → IsOk result }
        ensures err { OnErr result (self.new ≡ self.old) }
    {
        if self.table.len() == MAX_IDS {
            return Ok(());
        }
        let _answer = self.table.admit(u64::from(id), recorded)?;
        Ok(())
    }

    /// The atoms of the last pull of an id. None where no pull of it came, the last one failed, or the id isn't kept.
    pub fn snapshot(&self, id: u32) -> Option<&[Atom]>
        ensures answers { (frames : List LogFrame) → PullBookStandsFor self.now frames
            → option_map (λ s. s.now) result ≡ snapshot_of id frames }
        ensures sound { IfSome result (λ s. All (IsSnapshotAtom id) s.now) }
    {
        let Some(place) = self.table.place_of(&u64::from(id)) else {
            return None;
        };
        let Some((_id, recorded)) = self.table.pair(place) else {
            return None;
        };
        recorded.atoms()
    }

    /// Whether a pull of this id that comes next is kept.
    pub fn keeps(&self, id: u32) -> bool
        ensures answers { (frames : List LogFrame) → PullBookStandsFor self.now frames
            → result ≡ is_kept_next id frames }
        ensures room { IsTrue result ↔ (IsPulled id
            × (Contains (keys_of self.now) id ⊎ (length self.now < most_pulled_ids))) }
    {
        match self.table.place_of(&u64::from(id)) {
            Some(_) => true,
            None => {
                if !is_pulled(id) {
                    return false;
                }
                self.table.len() < MAX_IDS
            }
        }
    }

    /// The number of kept ids.
    pub fn len(&self) -> usize
        ensures value { result ≡ length self.now }
        ensures most { length self.now ≤ most_pulled_ids }
        ensures distinct { AllPairs (λ one other. one ≢ other) (keys_of self.now) }
        ensures rows { All IsKeptRow self.now }
    {
        self.table.len()
    }
}
