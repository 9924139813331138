//! A list without repeats.
ghost use Rattle.std.specs.Prelude.{◌≡◌, [], ◌<◌, not, length, IfOk, IfSome, OnErr};
ghost use Rattle.std.specs.List.{list_any};
ghost use Rattle.distinct.specs.Places.{first_place, with_item};

use indexmap::IndexSet;
use sd_base::Exact;
use std::alloc::{AllocError, Global};
use std::hash::Hash;
use std::marker::Model;

/// Items in the order in which they came, each once. The place of an item is found in a hash table.
#[derive(Drop)]
pub struct Distinct<T: Exact + Hash> {
    items: IndexSet<T>,
}

impl<T: Exact + Hash> Model for Distinct<T> {
    ghost use Rattle.std.specs.Prelude.{List};

    ghost Value = { List T };

    ghost view = { λ distinct. distinct.items.keys };
}

impl<T: Exact + Hash + Drop> Distinct<T> {
    /// The empty list. It takes no memory yet.
    pub fn new(alloc: Global) -> Distinct<T>
        ensures { result ≡ [] }
    {
        Distinct {
            items: IndexSet::new(alloc),
        }
    }

    /// Adds an item at the end, unless it is there already. The answer is whether it was new.
    pub fn add(&mut self, item: T) -> Result<bool, AllocError>
        ensures new { IfOk result (λ is_new. is_new ≡ not (list_any (T.eq item) self.old)) }
        ensures items { IfOk result (λ is_new. self.new ≡ with_item self.old item is_new) }
        ensures err { OnErr result (self.new ≡ self.old) }
    {
        let is_new = self.items.insert(item)?;
        Ok(is_new)
    }

    /// The place of an item, from 0 on.
    #[tactic(auto, unfolding(crate::specs::Places::first_place))]
    pub fn place(&self, item: &T) -> Option<usize>
        ensures place { result ≡ first_place (T.eq item.now) self.now }
        ensures within { IfSome result (λ at. at < length self.now) }
    {
        self.items.get_index_of(item)
    }

    /// Whether the item is there.
    pub fn contains(&self, item: &T) -> bool
        ensures { result ≡ list_any (T.eq item.now) self.now }
    {
        self.items.contains(item)
    }

    /// The items, borrowed.
    pub fn as_slice(&self) -> &[T]
        ensures { result.now ≡ self.now }
    {
        self.items.as_slice()
    }
}
