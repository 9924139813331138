//! The truths of slots for one atom.
ghost use Rattle.std.specs.Prelude.{◌≡◌, ◌≢◌, ◌⊎◌, ℕ, ◌<◌, length, take, slice_index_or, ◌&&◌, false, None, if◌then◌else◌};
ghost use Rattle.std.specs.List.{All};
ghost use Rattle.slab.specs.Slab.{get};
ghost use Rattle.atom_record.specs.AtomSound.{HasNoFault};
ghost use Rattle.config_types.specs.Askable.{IsAskable};
ghost use Rattle.matcher_table.specs.Slots.{matcher_at, children_of, times_among};
ghost use Rattle.matcher_table.specs.Trees.{slot_tree, TreesMeetTheirStep, ChildrenAreLive};
ghost use Rattle.matcher_table.specs.Truths.{has_id_of, asks_about, truth_with, tree_truth, IsEnough, HaveRisen, questions, MayAskAbout};

use crate::SharedMatcher;
use crate::operation::{id_of, joined_at};
use atom_record::Atom;
use config_types::SimpleMatcher;
use matcher_eval::Judge;
use slab::Slab;

/// Writes the truths of the slots of a list that is enough for the atom. The others have theirs already.
pub(crate) fn evaluate_along<J: Judge>(
    bodies: &Slab<SharedMatcher>,
    group: &[usize],
    atom: &Atom,
    judge: &mut J,
    results: &mut [bool],
)
    // The table has no cycle, and a judge may be asked about what is in it.
    requires meets { TreesMeetTheirStep bodies.now.slots }
    requires children { ChildrenAreLive bodies.now.slots }
    requires askable { (s : ℕ) → MayAskAbout (matcher_at bodies.now.slots s) }
    requires sound { HasNoFault atom.now }

    requires enough { IsEnough bodies.now.slots atom.now group.now }
    requires room { (s : ℕ) → matcher_at bodies.now.slots s ≢ None → s < length results.old }
    requires others { (s : ℕ) → matcher_at bodies.now.slots s ≢ None → times_among s group.now ≡ 0
        → slice_index_or results.old s false ≡ tree_truth J.says atom.now (slot_tree bodies.now.slots s) }
    ensures results { (s : ℕ) → matcher_at bodies.now.slots s ≢ None
        → slice_index_or results.new s false ≡ tree_truth J.says atom.now (slot_tree bodies.now.slots s) }
    ensures asked { HaveRisen (questions atom.now bodies.now.slots) (J.ticks judge.old) (J.ticks judge.new) }
{
    for slot in group {
        results[*slot] = truth_of(bodies, *slot, atom, judge, results);
    }
}

// The truth of a slot, from those of its children.
fn truth_of<J: Judge>(
    bodies: &Slab<SharedMatcher>,
    slot: usize,
    atom: &Atom,
    judge: &mut J,
    truths: &[bool],
) -> bool
    requires children { All (λ c. c < length truths.now) (children_of (get bodies.now slot)) }
    requires askable { MayAskAbout (get bodies.now slot) }
    requires sound { HasNoFault atom.now }
    ensures truth { result
        ≡ truth_with J.says atom.now (λ y. slice_index_or truths.now y false) (get bodies.now slot) }
    ensures asked { HaveRisen (if asks_about atom.now (get bodies.now slot) then 1 else 0)
        (J.ticks judge.old) (J.ticks judge.new) }
{
    match bodies.get(slot) {
        Some(SharedMatcher::Simple(matcher)) => ask(matcher, atom, judge),
        Some(SharedMatcher::Combination { op, children }) => joined_at(
            *op,
            children.as_slice(),
            truths,
        ),
        None => false,
    }
}

// Asks the judge, if the matcher is of the atom's id.
fn ask<J: Judge>(matcher: &SimpleMatcher, atom: &Atom, judge: &mut J) -> bool
    requires askable { IsAskable matcher.now }
    requires sound { HasNoFault atom.now }
    ensures truth { result ≡ (has_id_of atom.now matcher.now && J.says matcher.now atom.now) }
    ensures asked { HaveRisen (if has_id_of atom.now matcher.now then 1 else 0)
        (J.ticks judge.old) (J.ticks judge.new) }
{
    is_of(matcher, atom) && judge.eval_simple(matcher, atom)
}

// Whether the matcher is of the atom's id.
fn is_of(matcher: &SimpleMatcher, atom: &Atom) -> bool
    ensures { result ≡ has_id_of atom.now matcher.now }
{
    atom.id == id_of(matcher)
}

/// Gives slots their idle truths: those of a list, and those that stand in the order behind its front.
pub(crate) fn put_all_back(
    results: &mut [bool],
    idle: &[bool],
    list: &[usize],
    order: &[usize],
    front: usize,
)
    requires list { (s : ℕ) → 0 < times_among s list.now → (s < length results.old) × (s < length idle.now) }
    requires order { (s : ℕ) → 0 < times_among s order.now → (s < length results.old) × (s < length idle.now) }
    ensures put { (s : ℕ)
        → (0 < times_among s list.now) ⊎ (times_among s (take front order.now) < times_among s order.now)
        → slice_index_or results.new s false ≡ slice_index_or idle.now s false }
    ensures either { (s : ℕ) → (slice_index_or results.new s false ≡ slice_index_or results.old s false)
        ⊎ (slice_index_or results.new s false ≡ slice_index_or idle.now s false) }
{
    put_back(results, idle, list, 0);
    put_back(results, idle, order, front);
}

// Gives the slots of a list from a place on their idle truths.
fn put_back(results: &mut [bool], idle: &[bool], slots: &[usize], from: usize)
    requires results { (s : ℕ) → 0 < times_among s slots.now → s < length results.old }
    requires idle { (s : ℕ) → 0 < times_among s slots.now → s < length idle.now }
    ensures done { (s : ℕ) → times_among s (take from slots.now) < times_among s slots.now
        → slice_index_or results.new s false ≡ slice_index_or idle.now s false }
    ensures either { (s : ℕ) → (slice_index_or results.new s false ≡ slice_index_or results.old s false)
        ⊎ (slice_index_or results.new s false ≡ slice_index_or idle.now s false) }
    ensures same { length results.new ≡ length results.old }
{
    for at in from..slots.len() {
        results[slots[at]] = idle[slots[at]];
    }
}
