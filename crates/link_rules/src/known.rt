//! The ids of a kind.
ghost use Rattle.std.specs.Prelude.{◌≡◌, [], ◌∷◌, ◌++◌, ◌<◌, ◌≤◌, not, length, if◌then◌else◌, IfOk, OnErr};
ghost use Rattle.std.specs.List.{list_any};
ghost use Rattle.std.specs.Ordering.{int_eq};
ghost use Rattle.link_rules.specs.EntityIds.{id_place, place_in};

use distinct::Distinct;
use std::alloc::{AllocError, Global};
use std::marker::Model;

/// The ids of the entities of a kind, in config order, each once. There are no more than a configuration may have.
#[derive(Drop)]
pub struct Known {
    ids: Distinct<i64>,
}

impl Model for Known {
    ghost use Rattle.std.specs.Prelude.{List, ℤ, length, ◌≤◌};

    ghost Value = { List ℤ };

    ghost view = { λ known. known.ids };

    ghost invariant = { λ known. length known.ids ≤ 800 };
}

impl Known {
    pub fn new(alloc: Global) -> Known
        ensures { result ≡ [] }
    {
        Known {
            ids: Distinct::new(alloc),
        }
    }

    /// Adds an id at the end, unless it is there already. The answer is whether it was new.
    pub fn add(&mut self, id: i64) -> Result<bool, AllocError>
        requires { length self.old < 800 }
        ensures was_new { IfOk result (λ added. added ≡ not (list_any (int_eq id) self.old)) }
        ensures ids { IfOk result (λ added.
            self.new ≡ (if added then self.old ++ id ∷ [] else self.old)) }
        ensures err { OnErr result (self.new ≡ self.old) }
    {
        self.ids.add(id)
    }

    pub fn contains(&self, id: i64) -> bool
        ensures { result ≡ list_any (int_eq id) self.now }
    {
        self.ids.contains(&id)
    }

    /// The place of an id, from 0.
    pub fn place(&self, id: i64) -> Option<u32>
        ensures { result ≡ id_place id self.now }
    {
        match self.ids.place(&id) {
            Some(place) => Some(place as u32),
            None => None,
        }
    }

    /// The place of an id that is there.
    pub fn locate(&self, id: i64) -> u32
        ensures { result ≡ place_in self.now id }
    {
        self.place(id).unwrap_or(0)
    }
}

/// The ids of all kinds that are named, in config order. Alerts are named by none.
#[derive(Drop)]
pub struct Ids {
    pub matchers: Known,
    pub predicates: Known,
    pub states: Known,
    pub metrics: Known,
}
