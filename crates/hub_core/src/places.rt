//! Where configurations were found last.
ghost use Rattle.std.specs.Prelude.{IfSome};
ghost use Rattle.hub_core.specs.Slots.{IsAtPlace};

use crate::live_instance::LiveInstance;
use client_engine::LiveId;
use indexmap::IndexMap;
use std::alloc::Global;

// How many places are kept.
const KEPT: u64 = 1024;

/// Places of configurations as they were found last, by their names, so that most are found without a hash. What is
/// kept is looked at before it is used, and need not be so any more.
#[derive(Drop)]
pub struct Places {
    found: Vec<usize>,
}

impl Places {
    /// Nothing was found yet. It takes no memory.
    pub fn new(alloc: Global) -> Places {
        Places {
            found: Vec::new(alloc),
        }
    }

    /// Where a name stands, if it stands where it was found last.
    #[inline(always)]
    pub fn of(&self, slots: &IndexMap<LiveId, LiveInstance>, name: LiveId) -> Option<usize>
        ensures { IfSome result (λ place. IsAtPlace name place slots.now.entries) }
    {
        let place = *self.found.get(kept_at(name))?;
        // `len` says that no two names are the same.
        let _len = slots.len();
        let (own, _) = slots.get_index(place)?;
        if *own == name { Some(place) } else { None }
    }

    /// Keeps where a name stands, if it stands somewhere. Without memory nothing is kept.
    #[inline(never)]
    pub fn keep(&mut self, slots: &IndexMap<LiveId, LiveInstance>, name: LiveId) {
        let Some(place) = slots.get_index_of(&name) else {
            return;
        };
        if self.found.is_empty() && self.found.resize(KEPT as usize, 0).is_err() {
            return;
        }
        if let Some(kept) = self.found.get_mut(kept_at(name)) {
            *kept = place;
        }
    }
}

// Where the place of a name is kept. Some names share it.
fn kept_at(name: LiveId) -> usize {
    let mixed = name.id.cast_unsigned() ^ u64::from(name.uid.cast_unsigned());
    (mixed % KEPT) as usize
}
