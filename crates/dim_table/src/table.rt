//! A table that admits the first keys that come, up to a bound, and counts the arrivals of all others.
ghost use Rattle.std.specs.Prelude.{◌≡◌, ◌≢◌, ◌≤◌, ◌+◌, [], ◌∷◌, ◌++◌, length, position, slice_get, Some, None, IfOk, OnOk, OnErr, IsOk, IfSome, IfNone, IsTrue, ◌↔◌, Contains, AllPairs};
ghost use Rattle.std.specs.Borrow.{sem};
ghost use Rattle.std.specs.Map.{lookup, values_of};
ghost use Rattle.std.specs.Map.Iter.{deref_pair};
ghost use Rattle.std.specs.Option.{option_map, option_copied, option_copied_mut};
ghost use Rattle.bucket_meaning.specs.Limits.{most_keys};
ghost use Rattle.bucket_meaning.specs.Kept.{count_in_u64};
ghost use Rattle.dim_table.specs.Table.{keys, without, Admits, IsBounded, TableStandsFor, TakesArrival};
ghost use Rattle.dim_table.specs.Lent.{lends_value};

use crate::Admit;
use indexmap::map::IntoIter;
use indexmap::{Equivalent, IndexMap};
use key_hash::KeyHashing;
use sd_base::{Duplicate, Exact};
use std::alloc::{AllocError, Global};
use std::hash::Hash;
use std::marker::Model;
use std::mem;

/// The most keys that a table may be asked to hold.
pub const MAX_KEYS: usize = 3000;

/// Rows by key, in the order in which the keys first came. An arrival whose key finds no room is dropped and counted.
#[derive(Drop)]
pub struct Guarded<K: Exact + Hash, V> {
    rows: IndexMap<K, V, KeyHashing>,
    bound: usize,
    dropped: u64,
    alloc: Global,
}

impl<K: Exact + Hash, V> Model for Guarded<K, V> {
    ghost use Rattle.std.specs.Prelude.{length};
    ghost use Rattle.dim_table.specs.Table.{Table, IsBounded};

    ghost Value = { Table K V };

    ghost view = { λ g. record { rows = g.rows.entries; bound = g.bound; dropped = g.dropped } };

    ghost invariant = { λ g. IsBounded (length g.rows.entries) g.bound };
}

impl<K: Exact + Hash + Drop, V: Drop> Guarded<K, V> {
    /// An empty table of at most so many keys.
    pub fn new(alloc: Global, bound: usize) -> Guarded<K, V>
        requires least { 1 ≤ bound }
        requires most { bound ≤ most_keys }
        ensures empty { result ≡ record { rows = []; bound = bound; dropped = 0 } }
        ensures stands { TableStandsFor K.eq result [] }
    {
        Guarded::restore(alloc, bound, 0)
    }

    /// An empty table of at most so many keys, which counts on from so many dropped arrivals.
    pub fn restore(alloc: Global, bound: usize, dropped: u64) -> Guarded<K, V>
        requires least { 1 ≤ bound }
        requires most { bound ≤ most_keys }
        ensures { result ≡ record { rows = []; bound = bound; dropped = dropped } }
    {
        Guarded {
            rows: IndexMap::with_hasher(alloc, KeyHashing::new()),
            bound,
            dropped,
            alloc,
        }
    }

    /// Gives an arrival's key a row: the one that it has, or a new one. Where there is no room, counts the arrival.
    pub fn admit(&mut self, key: K, fresh: V) -> Result<Admit, AllocError>
        ensures answer { IfOk result (Admits self.old self.new key fresh) }
        ensures stands { OnOk result (TakesArrival K.eq self.old self.new key) }

        // Only a new key that finds room asks for memory.
        ensures present { Contains (keys self.old) key → IsOk result }
        ensures full { length self.old.rows ≡ self.old.bound → IsOk result }
        ensures err { OnErr result (self.new ≡ self.old) }
    {
        match self.rows.get_index_of(&key) {
            Some(place) => Ok(Admit::At(place)),
            None => self.append(key, fresh),
        }
    }

    // Gives a new key a row, or counts the arrival.
    fn append(&mut self, key: K, fresh: V) -> Result<Admit, AllocError>
        requires { position (K.eq key) (keys self.old) ≡ None }
        ensures answer { IfOk result (Admits self.old self.new key fresh) }
        ensures full { length self.old.rows ≡ self.old.bound → IsOk result }
        ensures err { OnErr result (self.new ≡ self.old) }
    {
        if self.is_full() {
            self.turn_away();
            return Ok(Admit::Full);
        }
        let place = self.rows.len();
        self.rows.insert(key, fresh)?;
        Ok(Admit::At(place))
    }

    // Whether no further key finds room.
    fn is_full(&self) -> bool
        ensures { IsTrue result ↔ (length self.now.rows ≡ self.now.bound) }
    {
        self.rows.len() == self.bound
    }

    // Counts an arrival that finds no room.
    fn turn_away(&mut self)
        ensures { self.new ≡ record self.old { dropped = count_in_u64 (self.old.dropped + 1) } }
    {
        self.dropped = self.dropped.saturating_add(1);
    }

    /// The place of a key's row, or none where the key has no row.
    pub fn place_of(&self, key: &K) -> Option<usize>
        ensures value { result ≡ position (K.eq key.now) (keys self.now) }
        ensures there { IfSome result (λ place. slice_get (keys self.now) place ≡ Some key.now) }
        ensures absent { IfNone result (¬ Contains (keys self.now) key.now) }
    {
        self.rows.get_index_of(key)
    }

    /// The value in the row whose key a query stands for, or none where no key is the one.
    pub fn find<Q: Equivalent<K>>(&self, query: Q) -> Option<&V>
        ensures { option_copied result ≡ lookup (Q.equivalent query) self.now.rows }
    {
        self.rows.get(query)
    }

    /// The row at a place, or none past the end.
    pub fn pair(&self, place: usize) -> Option<(&K, &V)>
        ensures { option_map deref_pair result ≡ slice_get self.now.rows place }
    {
        self.rows.get_index(place)
    }

    /// The value in the row at a place, to write, or none past the end.
    pub fn value_at(&mut self, place: usize) -> Option<&mut V>
        ensures* writes_back { sem 𝓛 (lends_value K.row V.row K.Hash self.entry place result) }
        ensures value { option_copied_mut result ≡ slice_get (values_of self.old.rows) place }
    {
        self.rows.get_index_mut(place)
    }

    /// Takes a key's row out and closes the gap. The answer is its value, or none where the key has no row.
    pub fn remove(&mut self, key: &K) -> Option<V>
        ensures value { result ≡ lookup (K.eq key.now) self.old.rows }
        ensures rows { self.new ≡ without K.eq self.old key.now }
    {
        // `len` says that the keys are distinct, so that a key's first row is its only one.
        let _len = self.rows.len();
        self.rows.shift_remove(key)
    }

    /// Takes all rows out. The count of what was dropped stays.
    pub fn clear(&mut self)
        ensures { self.new ≡ record self.old { rows = [] } }
    {
        self.rows.clear();
    }

    /// Moves all rows out, in order. The count of what was dropped stays.
    pub fn move_out(&mut self) -> IntoIter<K, V>
        ensures rows { result ≡ self.old.rows }
        ensures left { self.new ≡ record self.old { rows = [] } }
    {
        let fresh = IndexMap::with_hasher(self.alloc, KeyHashing::new());
        let rows = mem::replace(&mut self.rows, fresh);
        rows.into_iter()
    }

    /// Hands the count of what was dropped over, and starts it anew. The rows stay.
    pub fn take_dropped(&mut self) -> u64
        ensures given { result ≡ self.old.dropped }
        ensures left { self.new ≡ record self.old { dropped = 0 } }
    {
        mem::replace(&mut self.dropped, 0)
    }

    /// The number of rows.
    pub fn len(&self) -> usize
        ensures value { result ≡ length self.now.rows }
        ensures within { result ≤ self.now.bound }
        ensures distinct { AllPairs (λ one other. one ≢ other) (keys self.now) }
    {
        let _bound = self.bound;
        self.rows.len()
    }

    /// Whether there is no row.
    pub fn is_empty(&self) -> bool
        ensures { IsTrue result ↔ (self.now.rows ≡ []) }
    {
        self.rows.is_empty()
    }

    /// The most keys that the table holds.
    pub fn bound(&self) -> usize
        ensures value { result ≡ self.now.bound }
        ensures bounded { IsBounded (length self.now.rows) self.now.bound }
    {
        self.bound
    }

    /// How many arrivals were dropped. The count stands still at the end of its type.
    pub fn dropped(&self) -> u64
        ensures { result ≡ self.now.dropped }
    {
        self.dropped
    }

    /// Hands the rows and the count over, and leaves an empty table with the same bound and no drops.
    pub fn take_rows(&mut self) -> Guarded<K, V>
        ensures taken { result ≡ self.old }
        ensures left { self.new ≡ record self.old { rows = []; dropped = 0 } }
        ensures stands { TableStandsFor K.eq self.new [] }
    {
        let fresh = Guarded::new(self.alloc, self.bound);
        mem::replace(self, fresh)
    }
}

impl<K: Exact + Hash + Duplicate + Drop, V: Drop> Guarded<K, V> {
    /// The same as `admit`, of a key that stays with its owner. It is looked up first, and copied only for a new row.
    pub fn admit_copy(&mut self, key: &K, fresh: V) -> Result<Admit, AllocError>
        ensures answer { IfOk result (Admits self.old self.new key.now fresh) }
        ensures stands { OnOk result (TakesArrival K.eq self.old self.new key.now) }

        // Only a new key that finds room asks for memory.
        ensures present { Contains (keys self.old) key.now → IsOk result }
        ensures full { length self.old.rows ≡ self.old.bound → IsOk result }
        ensures err { OnErr result (self.new ≡ self.old) }
    {
        match self.rows.get_index_of(key) {
            Some(there) => Ok(Admit::At(there)),
            None => self.append_copy(key, fresh),
        }
    }

    // Gives a copy of a new key a row, or counts the arrival.
    fn append_copy(&mut self, key: &K, fresh: V) -> Result<Admit, AllocError>
        requires { position (K.eq key.now) (keys self.old) ≡ None }
        ensures answer { IfOk result (Admits self.old self.new key.now fresh) }
        ensures full { length self.old.rows ≡ self.old.bound → IsOk result }
        ensures err { OnErr result (self.new ≡ self.old) }
    {
        if self.is_full() {
            self.turn_away();
            return Ok(Admit::Full);
        }
        let copy = key.duplicate(self.alloc)?;
        self.append(copy, fresh)
    }
}
