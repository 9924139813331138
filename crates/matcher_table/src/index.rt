//! Which slot stands for a matcher, found by its hash.
ghost use Rattle.std.specs.Prelude.{◌≡◌, ◌≢◌, ◌<◌, Some, None, OnOk};
ghost use Rattle.matcher_table.specs.Finding.{slot_for, HasSpare};
ghost use Rattle.matcher_table.specs.declared.shared.SharedMatcher.{SharedMatcher};

use crate::SharedMatcher;
use indexmap::IndexMap;
use std::alloc::{AllocError, Global};

/// The slots of matchers. Its order says nothing.
#[derive(Drop)]
pub struct SlotIndex {
    pub(crate) slots: IndexMap<SharedMatcher, usize>,
}

impl SlotIndex {
    /// No matcher has a slot.
    pub(crate) fn new(alloc: Global) -> SlotIndex
        ensures { (wanted : SharedMatcher) → slot_for result wanted ≡ None }
    {
        SlotIndex {
            slots: IndexMap::new(alloc),
        }
    }

    /// The slot of a matcher.
    pub(crate) fn find(&self, wanted: &SharedMatcher) -> Option<usize>
        ensures { result ≡ slot_for self.now wanted.now }
    {
        self.slots.get(wanted).copied()
    }

    /// Room for one matcher more.
    pub(crate) fn reserve(&mut self) -> Result<(), AllocError>
        ensures room { OnOk result (HasSpare self.new) }
        ensures same { (wanted : SharedMatcher) → slot_for self.new wanted ≡ slot_for self.old wanted }
    {
        self.slots.reserve(1)
    }

    /// Gives a matcher its slot, where there is room.
    pub(crate) fn add(&mut self, shared: SharedMatcher, slot: usize)
        requires { HasSpare self.old }
        ensures added { slot_for self.new shared ≡ Some slot }
        ensures others { (wanted : SharedMatcher) → wanted ≢ shared
            → slot_for self.new wanted ≡ slot_for self.old wanted }
    {
        match self.slots.insert(shared, slot) {
            Ok(_) => {}
            Err(_) => unreachable!(),
        }
    }

    /// Takes the slot of a matcher away.
    pub(crate) fn remove(&mut self, shared: &SharedMatcher)
        ensures removed { slot_for self.new shared.now ≡ None }
        ensures others { (wanted : SharedMatcher) → wanted ≢ shared.now
            → slot_for self.new wanted ≡ slot_for self.old wanted }
    {
        self.slots.swap_remove(shared);
    }
}
