//! Slots that are held, from the install of a configuration to its end.
ghost use Rattle.std.specs.Prelude.{◌≡◌, ℕ, ◌<◌, ◌≤◌, List, length, map, slice_index, IfOk, OnOk};
ghost use Rattle.std.specs.List.{All};
ghost use Rattle.link_graph.specs.Links.{IsOrder};
ghost use Rattle.config_links.specs.SoundConfig.{named_matchers, IsSoundConfig};
ghost use Rattle.matcher_truths.specs.MatcherTruths.{named_places, MayBeAsked};
ghost use Rattle.matcher_table.specs.Slots.{times_among};
ghost use Rattle.matcher_table.specs.Tables.{outside_uses, result_at};
ghost use Rattle.matcher_table.specs.Contents.{contents_of, GivesSlot};
ghost use Rattle.held_slots.specs.Holdings.{in_slots, HoldMatchers, IsHeldAt, AreLive};
ghost use Rattle.held_slots.specs.HoldingSteps.{KeepsLive, AddsUses, ReleasesAll};

use crate::order::interning_order;
use config_links::{LMatcher, Linked};
use matcher_table::{MatcherTable, Slot};
use sd_base::Seq;
use std::alloc::{AllocError, Global};
use std::marker::Model;

/// The slots of a configuration's matchers, in config order.
#[derive(Drop)]
pub struct HeldSlots {
    numbers: Seq<usize>,
}

impl Model for HeldSlots {
    ghost use Rattle.std.specs.Prelude.{ℕ, List};
    ghost use Rattle.std.specs.Coded.{codes};

    ghost Value = { List ℕ };

    ghost coded = { Prim.hlevel codes };

    ghost view = { λ held. held.numbers };
}

impl HeldSlots {
    /// Interns each matcher of a configuration, those that it names before it. After want of memory some may be
    /// interned.
    pub fn hold(
        alloc: Global,
        table: &mut MatcherTable,
        linked: &Linked,
    ) -> Result<HeldSlots, AllocError>
        requires sound { IsSoundConfig linked.now }
        ensures holds { IfOk result (λ slots. HoldMatchers (contents_of table.new) slots linked.now.matchers) }
        ensures uses { IfOk result (λ slots. AddsUses (contents_of table.old) slots (contents_of table.new)) }
        ensures others { OnOk result (KeepsLive (contents_of table.old) (contents_of table.new)) }
    {
        let matchers = linked.matchers.as_slice();
        let order = interning_order(alloc, matchers)?;
        let numbers = numbers_along(alloc, table, matchers, order.as_slice())?;
        Ok(HeldSlots {
            numbers: Seq::from_vec(numbers),
        })
    }

    /// Releases each place's slot. It takes no memory.
    pub fn release(&self, table: &mut MatcherTable)
        requires { (s : ℕ) → times_among s self.now ≤ outside_uses (contents_of table.old) s }
        ensures { ReleasesAll (contents_of table.old) self.now (contents_of table.new) }
    {
        for number in self.numbers.as_slice() {
            table.release(Slot { number: *number });
        }
    }

    /// The truths of the slots for the last atom, in config order. The buffer's room is kept.
    pub fn results(&self, table: &MatcherTable, truths: &mut Vec<bool>) -> Result<(), AllocError>
        requires { AreLive (contents_of table.now) self.now }
        ensures { OnOk result (truths.new.items ≡ map (result_at (contents_of table.now)) self.now) }
    {
        let numbers = self.numbers.as_slice();
        truths.resize(numbers.len(), false)?;
        for place in 0..numbers.len() {
            truths[place] = table.result(Slot {
                number: numbers[place],
            });
        }
        Ok(())
    }
}

// The slots of matchers, which are interned in an order in which each comes after those that it names.
fn numbers_along(
    alloc: Global,
    table: &mut MatcherTable,
    matchers: &[LMatcher],
    order: &[u32],
) -> Result<Vec<usize>, AllocError>
    requires askable { All MayBeAsked matchers.now }
    requires in_order { IsOrder (named_places matchers.now) order.now }
    ensures holds { IfOk result (λ slots. HoldMatchers (contents_of table.new) slots.items matchers.now) }
    ensures uses { IfOk result (λ slots. AddsUses (contents_of table.old) slots.items (contents_of table.new)) }
    ensures others { OnOk result (KeepsLive (contents_of table.old) (contents_of table.new)) }
{
    let mut numbers = Vec::new(alloc);
    numbers.resize(matchers.len(), 0)?;
    for place in order {
        let at = *place as usize;
        let slot = intern(alloc, table, &matchers[at], numbers.as_slice())?;
        numbers[at] = slot.number;
    }
    Ok(numbers)
}

// One more outside use of a matcher whose children have slots already.
fn intern(
    alloc: Global,
    table: &mut MatcherTable,
    matcher: &LMatcher,
    numbers: &[usize],
) -> Result<Slot, AllocError>
    requires askable { MayBeAsked matcher.now }
    requires children { All (IsHeldAt (contents_of table.old) numbers.now) (named_matchers matcher.now) }
    ensures { IfOk result (GivesSlot table.old (in_slots numbers.now matcher.now) table.new) }
{
    match matcher {
        LMatcher::Simple(simple) => table.intern_simple(simple),
        LMatcher::Combo { op, children } => {
            let slots = slots_at(alloc, children.as_slice(), numbers)?;
            table.intern_combination(*op, slots.as_slice())
        }
    }
}

// The slots at these places.
fn slots_at(alloc: Global, places: &[u32], numbers: &[usize]) -> Result<Vec<Slot>, AllocError>
    requires { All (λ place. place < length numbers.now) places.now }
    ensures { IfOk result (λ slots. slots.items
        ≡ map (λ place. record { number = slice_index numbers.now place }) places.now) }
{
    let mut slots = Vec::new(alloc);
    for place in places {
        slots.push(Slot {
            number: numbers[*place as usize],
        })?;
    }
    Ok(slots)
}
