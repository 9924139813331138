//! Which slots hang on simple matchers of an atom id.
ghost use Rattle.std.specs.Prelude.{◌≡◌, ◌≢◌, ◌⊎◌, ℕ, ◌<◌, ◌≤◌, [], ◌∷◌, ◌++◌, Some, OnOk, OnErr, IfOk};
ghost use Rattle.indexmap.specs.IndexMap.{spare};
ghost use Rattle.matcher_eval.specs.AtomTests.{number_set};
ghost use Rattle.matcher_table.specs.Slots.{children_of, times_among};
ghost use Rattle.matcher_table.specs.NoEmpty.{KeepsNoEmptyList};

use crate::SharedMatcher;
use crate::id_lists::{add_missing, leave_one, push_slot};
use crate::low_lists::{join_at, leave_at, list_at};
use crate::operation::id_of;
use indexmap::IndexMap;
use sd_base::Seq;
use std::alloc::{AllocError, Global};

// Ids below this have their lists in a row, so that these are found without a hash.
const LOW_IDS: u32 = 4_096;

/// Under each atom id the slots that hang on a simple matcher of it, in the order in which they were made; and the ids
/// of each slot. The lists of low ids stand in a row, as far as one was needed; of the others an id with no slot isn't
/// kept.
#[derive(Drop)]
pub struct AtomSlots {
    pub(crate) low: Vec<Vec<usize>>,
    pub(crate) by_id: IndexMap<u32, Vec<usize>>,
    pub(crate) ids: IndexMap<usize, Seq<u32>>,
    ghost none_empty: { ∥ KeepsNoEmptyList by_id.entries ∥₁ },
}

impl AtomSlots {
    ghost use Rattle.matcher_table.specs.Hanging.{slots_under, high_slots, atom_ids, JoinsList, KeepsList, LeavesList, HangsUnder, UnhangsFrom, IsUnderAll};

    /// No slot hangs under any id.
    pub(crate) fn new(alloc: Global) -> AtomSlots
        ensures { (id : ℕ) → slots_under result id ≡ [] }
    {
        AtomSlots {
            low: Vec::new(alloc),
            by_id: IndexMap::new(alloc),
            ids: IndexMap::new(alloc),
        }
    }

    /// The slots under an id.
    pub(crate) fn under(&self, id: u32) -> &[usize]
        ensures { result.now ≡ slots_under self.now id }
    {
        if id < LOW_IDS {
            return list_at(self.low.as_slice(), id as usize);
        }
        self.under_high(id)
    }

    /// The slots under an id, or none if it is this one: an atom of the same id writes their truths anyway.
    pub(crate) fn under_other(&self, id: u32, than: u32) -> &[usize]
        ensures some { (s : ℕ) → 0 < times_among s result.now → 0 < times_among s (slots_under self.now id) }
        ensures other { id ≢ than → result.now ≡ slots_under self.now id }
    {
        if id == than {
            return &[];
        }
        self.under(id)
    }

    // The slots under an id in the map.
    fn under_high(&self, id: u32) -> &[usize]
        ensures { result.now ≡ high_slots self.now id }
    {
        match self.by_id.get(&id) {
            Some(slots) => slots.as_slice(),
            None => &[],
        }
    }

    // The ids under which a slot hangs.
    fn ids_at(&self, slot: usize) -> &[u32]
        ensures { result.now ≡ atom_ids self.now slot }
    {
        match self.ids.get(&slot) {
            Some(ids) => ids.as_slice(),
            None => &[],
        }
    }

    /// Hangs a new slot under its ids: under its own if it is simple, and else under those of its children.
    pub(crate) fn add(
        &mut self,
        alloc: Global,
        slot: usize,
        shared: &SharedMatcher,
    ) -> Result<(), AllocError>
        requires { (id : ℕ) → times_among slot (slots_under self.old id) ≡ 0 }
        ensures hangs { OnOk result (HangsUnder self.old slot shared.now self.new) }
        ensures lists { OnErr result ((id : ℕ) → slots_under self.new id ≡ slots_under self.old id) }
        ensures ids { OnErr result ((s : ℕ) → atom_ids self.new s ≡ atom_ids self.old s) }
    {
        let ids = self.ids_for(alloc, shared)?;
        self.ids.reserve(1)?;
        self.join_all(alloc, ids.as_slice(), slot)?;
        self.note(slot, ids);
        Ok(())
    }

    /// Takes a slot out of the lists of its ids.
    pub(crate) fn remove(&mut self, slot: usize)
        requires { (id : ℕ) → times_among slot (slots_under self.old id) ≤ 1 }
        ensures { UnhangsFrom self.old slot self.new }
    {
        let Some(ids) = self.ids.swap_remove(&slot) else {
            return;
        };
        self.leave_all(ids.as_slice(), slot);
    }

    // The ids of a matcher, each once.
    fn ids_for(&self, alloc: Global, shared: &SharedMatcher) -> Result<Seq<u32>, AllocError>
        ensures once { IfOk result (λ ids. (id : ℕ) → times_among id ids ≤ 1) }
        ensures own { IfOk result (λ ids. (matcher : _) → shared.now ≡ SharedMatcher.Simple matcher
            → 0 < times_among (number_set matcher.atom_id) ids) }
        ensures children { IfOk result (λ ids. IsUnderAll self.now (children_of (Some shared.now)) ids) }
    {
        let mut ids = Seq::new(alloc);
        match shared {
            SharedMatcher::Simple(matcher) => {
                ids.push(id_of(matcher))?;
                Ok(ids)
            }
            SharedMatcher::Combination { op: _, children } => {
                self.add_ids_of(children.as_slice(), &mut ids)?;
                Ok(ids)
            }
        }
    }

    // Adds the ids of these slots to a list that has each once.
    fn add_ids_of(&self, slots: &[usize], ids: &mut Seq<u32>) -> Result<(), AllocError>
        requires { (id : ℕ) → times_among id ids.old ≤ 1 }
        ensures once { (id : ℕ) → times_among id ids.new ≤ 1 }
        ensures added { OnOk result (IsUnderAll self.now slots.now ids.new) }
    {
        for slot in slots {
            add_missing(ids, self.ids_at(*slot))?;
        }
        Ok(())
    }

    // Notes the ids of a slot, where there is room.
    fn note(&mut self, slot: usize, ids: Seq<u32>)
        requires { 0 < spare self.old.ids }
        ensures lists { self.new.by_id ≡ self.old.by_id }
        ensures low { self.new.low ≡ self.old.low }
        ensures ids { atom_ids self.new slot ≡ ids }
        ensures others { (s : ℕ) → s ≢ slot → atom_ids self.new s ≡ atom_ids self.old s }
    {
        match self.ids.insert(slot, ids) {
            Ok(_) => {}
            Err(_) => unreachable!(),
        }
    }

    // Adds a slot that is in no list to the lists of these ids, or changes nothing.
    fn join_all(&mut self, alloc: Global, ids: &[u32], slot: usize) -> Result<(), AllocError>
        requires vacant { (id : ℕ) → times_among slot (slots_under self.old id) ≡ 0 }
        requires once { (id : ℕ) → times_among id ids.now ≤ 1 }
        ensures joined { OnOk result
            ((id : ℕ) → 0 < times_among id ids.now → JoinsList slot self.old self.new id) }
        ensures apart { (id : ℕ) → times_among id ids.now ≡ 0 → KeepsList self.old self.new id }
        ensures err { OnErr result ((id : ℕ) → KeepsList self.old self.new id) }
        ensures ids { self.new.ids ≡ self.old.ids }
    {
        match self.join_some(alloc, ids, slot) {
            Ok(()) => Ok(()),
            Err(error) => {
                self.leave_all(ids, slot);
                Err(error)
            }
        }
    }

    // Adds a slot to the lists of these ids. Where memory is wanted, it has joined some.
    fn join_some(&mut self, alloc: Global, ids: &[u32], slot: usize) -> Result<(), AllocError>
        requires { (id : ℕ) → times_among id ids.now ≤ 1 }
        ensures joined { OnOk result
            ((id : ℕ) → 0 < times_among id ids.now → JoinsList slot self.old self.new id) }
        ensures apart { (id : ℕ) → times_among id ids.now ≡ 0 → KeepsList self.old self.new id }
        ensures some { (id : ℕ)
            → KeepsList self.old self.new id ⊎ JoinsList slot self.old self.new id }
        ensures ids { self.new.ids ≡ self.old.ids }
    {
        for id in ids {
            self.join(alloc, *id, slot)?;
        }
        Ok(())
    }

    // Takes a slot out of the lists of these ids.
    fn leave_all(&mut self, ids: &[u32], slot: usize)
        requires { (id : ℕ) → times_among slot (slots_under self.old id) ≤ 1 }
        ensures left { (id : ℕ) → 0 < times_among id ids.now
            → LeavesList slot (slots_under self.old id) (slots_under self.new id) }
        ensures apart { (id : ℕ) → times_among id ids.now ≡ 0 → KeepsList self.old self.new id }
        ensures ids { self.new.ids ≡ self.old.ids }
    {
        for id in ids {
            self.leave(*id, slot);
        }
    }

    // Adds a slot at the end of the list of an id.
    fn join(&mut self, alloc: Global, id: u32, slot: usize) -> Result<(), AllocError>
        ensures own { OnOk result (JoinsList slot self.old self.new id) }
        ensures err { OnErr result (KeepsList self.old self.new id) }
        ensures others { (other : ℕ) → other ≢ id → KeepsList self.old self.new other }
        ensures ids { self.new.ids ≡ self.old.ids }
    {
        if id < LOW_IDS {
            return join_at(alloc, &mut self.low, id as usize, slot);
        }
        self.join_high(alloc, id, slot)
    }

    // The same in the map.
    fn join_high(&mut self, alloc: Global, id: u32, slot: usize) -> Result<(), AllocError>
        ensures own { OnOk result (high_slots self.new id ≡ high_slots self.old id ++ slot ∷ []) }
        ensures err { OnErr result (high_slots self.new id ≡ high_slots self.old id) }
        ensures others { (other : ℕ) → other ≢ id → high_slots self.new other ≡ high_slots self.old other }
        ensures low { self.new.low ≡ self.old.low }
        ensures ids { self.new.ids ≡ self.old.ids }
    {
        let Some(slots) = self.by_id.get_mut(&id) else {
            return self.start(alloc, id, slot);
        };
        push_slot(slots, slot)
    }

    // The first slot of an id in the map.
    fn start(&mut self, alloc: Global, id: u32, slot: usize) -> Result<(), AllocError>
        requires { high_slots self.old id ≡ [] }
        ensures own { OnOk result (high_slots self.new id ≡ slot ∷ []) }
        ensures err { OnErr result (high_slots self.new id ≡ []) }
        ensures others { (other : ℕ) → other ≢ id → high_slots self.new other ≡ high_slots self.old other }
        ensures low { self.new.low ≡ self.old.low }
        ensures ids { self.new.ids ≡ self.old.ids }
    {
        let mut slots = Vec::new(alloc);
        push_slot(&mut slots, slot)?;
        self.by_id.insert(id, slots)?;
        Ok(())
    }

    // Takes a slot out of the list of an id.
    fn leave(&mut self, id: u32, slot: usize)
        ensures left { LeavesList slot (slots_under self.old id) (slots_under self.new id) }
        ensures others { (other : ℕ) → other ≢ id → slots_under self.new other ≡ slots_under self.old other }
        ensures ids { self.new.ids ≡ self.old.ids }
    {
        if id < LOW_IDS {
            leave_at(&mut self.low, id as usize, slot);
        } else {
            self.leave_high(id, slot);
        }
    }

    // The same in the map, of which a list that gets empty goes.
    fn leave_high(&mut self, id: u32, slot: usize)
        ensures left { LeavesList slot (high_slots self.old id) (high_slots self.new id) }
        ensures others { (other : ℕ) → other ≢ id → high_slots self.new other ≡ high_slots self.old other }
        ensures low { self.new.low ≡ self.old.low }
        ensures ids { self.new.ids ≡ self.old.ids }
    {
        let Some(slots) = self.by_id.get_mut(&id) else {
            return;
        };
        leave_one(slots, slot);
        if slots.is_empty() {
            self.by_id.swap_remove(&id);
        }
    }
}
