//! The states of one id: a state for each key, for the first keys that came.
ghost use Rattle.std.specs.Prelude.{◌≡◌, ◌≢◌, ◌≤◌, ◌↔◌, true, [], length, map, slice_get, Some, All, AllPairs, IsTrue, IsOk, OnOk, OnErr, Contains};
ghost use Rattle.std.specs.Option.{option_map};
ghost use Rattle.dim_table.specs.Table.{keys, with_value_at};
ghost use Rattle.book_meaning.specs.BookLimits.{most_state_keys};
ghost use Rattle.book_meaning.specs.States.{no_state_known, puts_back};
ghost use Rattle.state_slicer.specs.StateTables.{current, with_blanks};

use crate::told::{UNKNOWN, read_state, resets_states, told_key};
use atom_record::{Atom, DimKey};
use dim_table::Guarded;
use std::alloc::{AllocError, Global};
use std::marker::Model;

/// The most keys of one id.
pub const MAX_STATE_KEYS: usize = 3000;

/// A state, and how many resets its id had had when it was told.
#[derive(Clone, Copy)]
pub struct Stamped {
    pub state: i32,
    pub resets: u16,
}

/// The states of one id. A reset counts one up, and so makes every state that was told before it unknown at once. Only
/// when the count is at the end of its type does a reset go over all keys.
#[derive(Drop)]
pub struct IdStates {
    keys: Guarded<DimKey, Stamped>,
    resets: u16,
}

impl Model for IdStates {
    ghost use Rattle.std.specs.Prelude.{List, ℤ};
    ghost use Rattle.atom_record.specs.declared.value.Leaf.{Leaf};
    ghost use Rattle.dim_table.specs.Table.{Table};
    ghost use Rattle.state_slicer.specs.StateTables.{current_table, IsStamped};

    ghost Value = { Table (List Leaf) ℤ };

    ghost view = { λ s. current_table s.resets s.keys };

    ghost invariant = { λ s. IsStamped s.resets s.keys };
}

// The state that is still known after so many resets.
fn known_state(stamped: &Stamped, resets: u16) -> i32
    ensures { result ≡ current resets stamped.now }
{
    if stamped.resets == resets {
        stamped.state
    } else {
        UNKNOWN
    }
}

// Makes the state of each key unknown, as after no reset.
fn forget_all(table: &mut Guarded<DimKey, Stamped>)
    ensures { table.new ≡ with_blanks table.old }
{
    let count = table.len();
    for place in 0..count {
        let Some(stamped) = table.value_at(place) else {
            return;
        };
        *stamped = Stamped {
            state: UNKNOWN,
            resets: 0,
        };
    }
}

impl IdStates {
    ghost use Rattle.state_slicer.specs.StateTables.{put_back, IsStateOf, IsTold, TakesAtom};

    /// No key. It takes no memory yet.
    pub fn new(alloc: Global) -> IdStates
        ensures { result ≡ record { rows = []; bound = most_state_keys; dropped = 0 } }
    {
        IdStates::restore(alloc, 0)
    }

    /// No key, and so many atoms whose key found no room. It takes no memory yet.
    pub fn restore(alloc: Global, dropped: u64) -> IdStates
        ensures { result ≡ record { rows = []; bound = most_state_keys; dropped = dropped } }
    {
        IdStates {
            keys: Guarded::restore(alloc, MAX_STATE_KEYS, dropped),
            resets: 0,
        }
    }

    /// Takes a state atom of the id.
    pub fn take(&mut self, alloc: Global, atom: &Atom) -> Result<(), AllocError>
        ensures taken { OnOk result (TakesAtom self.old self.new atom.now) }
        ensures reset { puts_back atom.now ≡ true → IsOk result }
        ensures err { OnErr result (self.new ≡ self.old) }
    {
        if resets_states(atom) {
            self.reset();
            return Ok(());
        }
        let key = told_key(alloc, atom)?;
        self.tell(key, read_state(atom))
    }

    // Makes the states of all keys unknown.
    fn reset(&mut self)
        ensures { self.new ≡ put_back self.old }
    {
        if self.resets == u16::MAX {
            forget_all(&mut self.keys);
            self.resets = 0;
            return;
        }
        self.resets += 1;
    }

    // Tells the state of a key.
    fn tell(&mut self, key: DimKey, state: i32) -> Result<(), AllocError>
        ensures told { OnOk result (IsTold self.old self.new key state) }
        ensures err { OnErr result (self.new ≡ self.old) }
    {
        match self.keys.place_of(&key) {
            Some(place) => {
                self.write(place, state);
                Ok(())
            }
            None => self.append(key, state),
        }
    }

    // Writes another state of the key at a place.
    fn write(&mut self, place: usize, state: i32)
        ensures { self.new ≡ with_value_at self.old place state }
    {
        let resets = self.resets;
        let Some(stamped) = self.keys.value_at(place) else {
            return;
        };
        *stamped = Stamped { state, resets };
    }

    /// Gives a new key a place after the others, or counts it.
    pub fn append(&mut self, key: DimKey, state: i32) -> Result<(), AllocError>
        requires { ¬ Contains (keys self.old) key }
        ensures told { OnOk result (IsTold self.old self.new key state) }
        ensures err { OnErr result (self.new ≡ self.old) }
    {
        let resets = self.resets;
        let _answer = self.keys.admit(key, Stamped { state, resets })?;
        Ok(())
    }

    /// The state of a key, or -1 where it isn't there.
    pub fn value(&self, key: &DimKey) -> i32
        ensures there { Contains (keys self.now) key.now → IsStateOf self.now key.now result }
        ensures absent { (¬ Contains (keys self.now) key.now) → result ≡ no_state_known }
    {
        let Some(place) = self.keys.place_of(key) else {
            return UNKNOWN;
        };
        let Some((_key, stamped)) = self.keys.pair(place) else {
            return UNKNOWN;
        };
        known_state(stamped, self.resets)
    }

    /// Whether a key is there.
    pub fn has(&self, key: &DimKey) -> bool
        ensures { IsTrue result ↔ Contains (keys self.now) key.now }
    {
        self.keys.place_of(key).is_some()
    }

    /// The key at a place with its state, or none past the end.
    pub fn pair(&self, place: usize) -> Option<(&DimKey, i32)>
        ensures { option_map (λ row. (row.0.now, row.1)) result ≡ slice_get self.now.rows place }
    {
        let (key, stamped) = self.keys.pair(place)?;
        Some((key, known_state(stamped, self.resets)))
    }

    /// The number of keys.
    pub fn len(&self) -> usize
        ensures value { result ≡ length self.now.rows }
        ensures bound { self.now.bound ≡ most_state_keys }
        ensures within { result ≤ most_state_keys }
        ensures distinct { AllPairs (λ one other. one ≢ other) (keys self.now) }
    {
        self.keys.len()
    }

    /// How many atoms had a key that found no room.
    pub fn drops(&self) -> u64
        ensures { result ≡ self.now.dropped }
    {
        self.keys.dropped()
    }
}
