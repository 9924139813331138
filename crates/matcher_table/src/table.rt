//! The table that all clients share.
ghost use Rattle.std.specs.Prelude.{◌≡◌, ◌↔◌, map, IfOk, IsTrue};
ghost use Rattle.matcher_table.specs.StoreParts.{StoreStands};

use crate::SharedMatcher;
use crate::store::Store;
use atom_record::Atom;
use config_types::{Operation, SimpleMatcher};
use matcher_eval::Judge;
use sd_base::Seq;
use std::alloc::{AllocError, Global};

/// A place of the table, which one matcher has while it is used.
#[derive(Clone, Copy, Debug, PartialEq, Eq)]
pub struct Slot {
    pub number: usize,
}

/// Matchers, each different one once, with their truths for the last atom.
#[derive(Drop)]
pub struct MatcherTable {
    alloc: Global,
    store: Store,
    ghost sound: { ∥ StoreStands store 0 ∥₁ },
}

impl MatcherTable {
    ghost use Rattle.std.specs.Prelude.{◌<◌, [], OnErr};
    ghost use Rattle.std.specs.List.{All};
    ghost use Rattle.atom_record.specs.AtomSound.{HasNoFault};
    ghost use Rattle.config_types.specs.Askable.{IsAskable};
    ghost use Rattle.matcher_table.specs.Tables.{outside_uses, result_at, IsUnchanged};
    ghost use Rattle.matcher_table.specs.Steps.{Releases};
    ghost use Rattle.matcher_table.specs.Truths.{Evaluates, HaveRisen, questions};
    ghost use Rattle.matcher_table.specs.TableFacts.{IsSoundTable, KeepsTrees};
    ghost use Rattle.matcher_table.specs.Contents.{contents_of, GivesSlot, IsLive, combination_of};

    /// No slot is live.
    pub fn new(alloc: Global) -> MatcherTable
        ensures slots { (contents_of result).slots ≡ [] }
        ensures next { (contents_of result).next ≡ 0 }
    {
        MatcherTable {
            alloc,
            store: Store::new(alloc),
        }
    }

    /// One more outside use of a simple matcher.
    pub fn intern_simple(&mut self, matcher: &SimpleMatcher) -> Result<Slot, AllocError>
        requires { IsAskable matcher.now }
        ensures interns { IfOk result
            (GivesSlot self.old (SharedMatcher.Simple matcher.now) self.new) }
        ensures err { OnErr result (IsUnchanged (contents_of self.old) (contents_of self.new)) }
        ensures trees { KeepsTrees (contents_of self.old) (contents_of self.new) }
    {
        let shared = SharedMatcher::Simple(matcher.clone_matcher(self.alloc)?);
        let number = self.store.intern(self.alloc, shared)?;
        Ok(Slot { number })
    }

    /// One more outside use of a combination of live slots.
    pub fn intern_combination(
        &mut self,
        op: Operation,
        children: &[Slot],
    ) -> Result<Slot, AllocError>
        requires { All (IsLive self.old) children.now }
        ensures interns { IfOk result
            (GivesSlot self.old (combination_of op children.now) self.new) }
        ensures err { OnErr result (IsUnchanged (contents_of self.old) (contents_of self.new)) }
        ensures trees { KeepsTrees (contents_of self.old) (contents_of self.new) }
    {
        let children = numbers(self.alloc, children)?;
        let number = self
            .store
            .intern(self.alloc, SharedMatcher::Combination { op, children })?;
        Ok(Slot { number })
    }

    /// One outside use fewer. What has no use any more leaves the table. It takes no memory.
    pub fn release(&mut self, slot: Slot)
        requires { 0 < outside_uses (contents_of self.old) slot.number }
        ensures releases { Releases (contents_of self.old) slot.number (contents_of self.new) }
        ensures trees { KeepsTrees (contents_of self.old) (contents_of self.new) }
    {
        self.store.release(slot.number);
    }

    /// The truths of all live slots on the atom. Each different simple matcher of the atom's id is asked once, and no
    /// other. It takes no memory.
    pub fn evaluate<J: Judge>(&mut self, atom: &Atom, judge: &mut J)
        requires { HasNoFault atom.now }
        ensures evaluates { Evaluates J.says atom.now (contents_of self.old) (contents_of self.new) }
        ensures asked { HaveRisen (questions atom.now (contents_of self.old).slots)
            (J.ticks judge.old) (J.ticks judge.new) }
    {
        self.store.evaluate(atom, judge);
    }

    /// The truth for the last atom; false where none came since the slot was made.
    pub fn result(&self, slot: Slot) -> bool
        requires { IsLive self.now slot }
        ensures { result ≡ result_at (contents_of self.now) slot.number }
    {
        self.store.result(slot.number)
    }

    /// Whether a matcher has the slot.
    pub fn is_live(&self, slot: Slot) -> bool
        ensures { IsTrue result ↔ IsLive self.now slot }
    {
        self.store.bodies.contains(slot.number)
    }

    /// How many interns of the slot aren't released yet.
    pub fn outside_uses(&self, slot: Slot) -> usize
        ensures { result ≡ outside_uses (contents_of self.now) slot.number }
    {
        self.store.outside.get(slot.number).copied().unwrap_or(0)
    }

    /// The law of every table.
    pub fn is_sound(&self)
        ensures { IsSoundTable (contents_of self.now) }
    {}
}

// The numbers of slots.
fn numbers(alloc: Global, slots: &[Slot]) -> Result<Seq<usize>, AllocError>
    ensures { IfOk result (λ made. made ≡ map (λ slot. slot.number) slots.now) }
{
    let mut made = Seq::new(alloc);
    for slot in slots {
        made.push(slot.number)?;
    }
    Ok(made)
}
