//! How a table is held: what each slot stands for, the live slots in an order in which children come first, counts, and
//! for each atom id the slots whose truth it may change.
ghost use Rattle.std.specs.Prelude.{◌≡◌, ◌≢◌, ◌↔◌, IsTrue, ℕ, ◌+◌, ◌<◌, ◌≤◌, [], ◌∷◌, ◌++◌, length, slice_index, slice_index_or, slice_set, false, IfOk, OnOk, OnErr, Some, None, vec_len, vec_capacity};
ghost use Rattle.std.specs.List.{remove};
ghost use Rattle.atom_record.specs.AtomSound.{HasNoFault};
ghost use Rattle.matcher_table.specs.Truths.{Evaluates, HaveRisen, questions};
ghost use Rattle.matcher_table.specs.Slots.{matcher_at, children_of, times_among};
ghost use Rattle.matcher_table.specs.Tables.{IsUnchanged};
ghost use Rattle.matcher_table.specs.Steps.{Interns, Releases};
ghost use Rattle.matcher_table.specs.StoreParts.{StoreStands, StoreIsHeld, StoreIsIndexed, AwaitsMatcher, IsUsed, Frees, LosesSlot, MayIntern, HasRoomReserved, ChangesOutside, slot_in_order, table_in};
ghost use Rattle.matcher_table.specs.Counts.{CanAdd};
ghost use Rattle.matcher_table.specs.Finding.{slot_for};
ghost use Rattle.matcher_table.specs.declared.shared.SharedMatcher.{SharedMatcher};

use crate::SharedMatcher;
use crate::counts::{add_uses, can_add, drop_uses, lengthen, lengthen_truths, push_reserved};
use crate::evaluation::{evaluate_along, put_all_back};
use crate::hanging::AtomSlots;
use crate::index::SlotIndex;
use crate::operation::idle_of;
use atom_record::Atom;
use matcher_eval::Judge;
use sd_base::Duplicate;
use slab::Slab;
use std::alloc::{AllocError, Global};

/// The parts of a table. Between two calls each live slot has a use.
#[derive(Drop)]
pub struct Store {
    pub(crate) bodies: Slab<SharedMatcher>,
    pub(crate) index: SlotIndex,
    pub(crate) order: Vec<usize>,
    pub(crate) outside: Vec<usize>,
    pub(crate) uses: Vec<usize>,
    pub(crate) results: Vec<bool>,
    // For the evaluation: what hangs under each id, the truths where no simple matcher holds, how many slots at the
    // front of the order were there at the last atom, and its id.
    pub(crate) hanging: AtomSlots,
    pub(crate) idle: Vec<bool>,
    pub(crate) settled: usize,
    pub(crate) last: u32,
}

impl Store {
    /// No slot is live.
    pub fn new(alloc: Global) -> Store
        ensures stands { StoreStands result 0 }
        ensures slots { result.bodies.slots ≡ [] }
        ensures next { result.bodies.vacant_key ≡ 0 }
    {
        Store {
            bodies: Slab::new(alloc),
            index: SlotIndex::new(alloc),
            order: Vec::new(alloc),
            outside: Vec::new(alloc),
            uses: Vec::new(alloc),
            results: Vec::new(alloc),
            hanging: AtomSlots::new(alloc),
            idle: Vec::new(alloc),
            settled: 0,
            last: 0,
        }
    }

    /// The slot of an equal matcher, or a new one.
    pub fn intern(&mut self, alloc: Global, shared: SharedMatcher) -> Result<usize, AllocError>
        requires stands { StoreStands self.old 0 }
        requires may { MayIntern self.old shared }
        ensures interns { IfOk result (λ slot. Interns (table_in self.old) shared slot (table_in self.new)) }
        ensures err { OnErr result (IsUnchanged (table_in self.old) (table_in self.new)) }
        ensures stands { StoreStands self.new 0 }
    {
        match self.index.find(&shared) {
            Some(slot) => self.raise(slot, &shared),
            None => self.make(alloc, shared),
        }
    }

    // One more outside use of a live slot. It takes no memory: the count may stand at its type's end.
    fn raise(&mut self, slot: usize, shared: &SharedMatcher) -> Result<usize, AllocError>
        requires stands { StoreStands self.old 0 }
        requires live { matcher_at self.old.bodies.slots slot ≡ Some shared.now }
        ensures interns { IfOk result (λ s. Interns (table_in self.old) shared.now s (table_in self.new)) }
        ensures full { OnErr result (slice_index self.old.outside.items slot ≡ usize.MAX) }
        ensures err { OnErr result (IsUnchanged (table_in self.old) (table_in self.new)) }
        ensures stands { StoreStands self.new 0 }
    {
        if self.outside[slot] == usize::MAX {
            return Err(AllocError);
        }
        self.outside[slot] += 1;
        Ok(slot)
    }

    // A new slot.
    fn make(&mut self, alloc: Global, shared: SharedMatcher) -> Result<usize, AllocError>
        requires stands { StoreStands self.old 0 }
        requires may { MayIntern self.old shared }
        requires is_new { (s : ℕ) → matcher_at self.old.bodies.slots s ≢ Some shared }
        ensures interns { IfOk result (λ slot. Interns (table_in self.old) shared slot (table_in self.new)) }
        ensures err { OnErr result (IsUnchanged (table_in self.old) (table_in self.new)) }
        ensures stands { StoreStands self.new 0 }
    {
        if !can_add(self.uses.as_slice(), shared.children()) {
            return Err(AllocError);
        }
        let key = shared.duplicate(alloc)?;
        self.reserve()?;
        self.hanging.add(alloc, self.bodies.vacant_key(), &shared)?;
        Ok(self.place(shared, key))
    }

    // Room for one slot more.
    fn reserve(&mut self) -> Result<(), AllocError>
        requires stands { StoreStands self.old 0 }
        ensures room { OnOk result (HasRoomReserved self.new) }
        ensures unchanged { IsUnchanged (table_in self.old) (table_in self.new) }
        ensures uses { (s : ℕ) → slice_index self.new.uses.items s ≡ slice_index self.old.uses.items s }
        ensures stands { StoreStands self.new 0 }
    {
        self.bodies.reserve(1)?;
        self.index.reserve()?;
        self.order.reserve(1)?;
        let slot = self.bodies.vacant_key();
        lengthen(&mut self.outside, slot)?;
        lengthen(&mut self.uses, slot)?;
        lengthen_truths(&mut self.results, slot)?;
        lengthen_truths(&mut self.idle, slot)
    }

    // Puts it into the vacant slot that comes next.
    fn place(&mut self, shared: SharedMatcher, key: SharedMatcher) -> usize
        requires awaits { AwaitsMatcher self.old shared }
        requires key { key ≡ shared }
        ensures interns { Interns (table_in self.old) shared result (table_in self.new) }
        ensures stands { StoreStands self.new 0 }
    {
        let idle = idle_of(&shared, self.idle.as_slice());
        add_uses(&mut self.uses, shared.children());
        let slot = self.bodies.insert_reserved(shared);
        self.index.add(key, slot);
        self.outside[slot] = 1;
        self.results[slot] = false;
        self.idle[slot] = idle;
        push_reserved(&mut self.order, slot);
        slot
    }

    /// One outside use fewer. A slot without a use goes, and its places in the child uses of others go too.
    pub fn release(&mut self, slot: usize)
        requires stands { StoreStands self.old 0 }
        requires outside { 0 < slice_index self.old.outside.items slot }
        ensures releases { Releases (table_in self.old) slot (table_in self.new) }
        ensures stands { StoreStands self.new 0 }
    {
        self.lower(slot);
        if self.is_used(slot) {
            return;
        }
        self.sweep();
    }

    fn is_used(&self, slot: usize) -> bool
        requires outside { slot < length self.now.outside.items }
        requires uses { slot < length self.now.uses.items }
        ensures { IsTrue result ↔ IsUsed self.now slot }
    {
        self.outside[slot] > 0 || self.uses[slot] > 0
    }

    fn slot_at(&self, at: usize) -> usize
        requires { at < length self.now.order.items }
        ensures { result ≡ slice_index self.now.order.items at }
    {
        self.order[at]
    }

    fn lower(&mut self, slot: usize)
        requires stands { StoreStands self.old 0 }
        requires outside { 0 < slice_index self.old.outside.items slot }
        ensures outside { ChangesOutside self.old self.new slot }
        ensures lower { slice_index self.new.outside.items slot + 1 ≡ slice_index self.old.outside.items slot }
        ensures stands { StoreStands self.new (length self.new.order.items) }
    {
        self.outside[slot] -= 1;
    }

    /// The truths of all live slots: those under the atom's id are found, and the others have their idle truths, to
    /// which those under the last id, if it is another, and the new ones are put back. It takes no memory.
    pub fn evaluate<J: Judge>(&mut self, atom: &Atom, judge: &mut J)
        requires stands { StoreStands self.old 0 }
        requires sound { HasNoFault atom.now }
        ensures evaluates { Evaluates J.says atom.now (table_in self.old) (table_in self.new) }
        ensures asked { HaveRisen (questions atom.now self.old.bodies.slots) (J.ticks judge.old) (J.ticks judge.new) }
        ensures stands { StoreStands self.new 0 }
    {
        put_all_back(
            &mut self.results,
            self.idle.as_slice(),
            self.hanging.under_other(self.last, atom.id),
            self.order.as_slice(),
            self.settled,
        );
        self.settled = self.order.len();
        self.last = atom.id;
        evaluate_along(
            &self.bodies,
            self.hanging.under(atom.id),
            atom,
            judge,
            &mut self.results,
        );
    }

    /// The truth of a live slot for the last atom.
    pub fn result(&self, slot: usize) -> bool
        requires held { StoreIsHeld self.now }
        requires live { matcher_at self.now.bodies.slots slot ≢ None }
        ensures { result ≡ slice_index_or self.now.results.items slot false }
    {
        self.results[slot]
    }

    // Frees what has no use. In this direction a slot comes before its children, so that one pass is enough.
    fn sweep(&mut self)
        requires stands { StoreStands self.old (length self.old.order.items) }
        ensures frees { Frees self.old self.new }
        ensures stands { StoreStands self.new 0 }
    {
        let mut at = self.order.len();
        while at > 0 {
            at -= 1;
            self.free_if_unused(at);
        }
    }

    fn free_if_unused(&mut self, at: usize)
        requires stands { StoreStands self.old (at + 1) }
        requires within { at < length self.old.order.items }
        ensures within { at ≤ length self.new.order.items }
        ensures frees { Frees self.old self.new }
        ensures stands { StoreStands self.new at }
    {
        let slot = self.slot_at(at);
        if self.is_used(slot) {
            return;
        }
        self.hanging.remove(slot);
        self.settled = front_without(self.settled, at);
        self.free(at);
    }

    // Takes the slot at this place of the order out of the table.
    fn free(&mut self, at: usize)
        requires held { StoreIsHeld self.old }
        requires indexed { StoreIsIndexed self.old }
        requires within { at < length self.old.order.items }
        requires unused { slice_index self.old.uses.items (slot_in_order self.old at) ≡ 0 }
        ensures { LosesSlot self.old self.new at }
    {
        let slot = self.order.remove(at);
        let shared = self.bodies.remove(slot);
        self.index.remove(&shared);
        drop_uses(&mut self.uses, shared.children());
    }
}

// How long a front of a list is without the place.
fn front_without(front: usize, at: usize) -> usize
    ensures above { at < front → result + 1 ≡ front }
    ensures below { front ≤ at → result ≡ front }
{
    if at < front {
        return front - 1;
    }
    front
}
