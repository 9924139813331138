//! What stays after an atom of the inner keys that were there before it: what stays isn't asked again.
ghost use Rattle.std.specs.Prelude.{◌≡◌};
ghost use Rattle.metric_meaning.specs.Touched.{acts_below};
ghost use Rattle.client_engine.specs.Staying.{stays_by, stays_apart, stays_untold, first_asked, is_nothing, is_kept};
ghost use Rattle.known_conditions.specs.Touchers.{tells_one};

use crate::brought::Brought;
use crate::slices::tells_one;
use crate::told::Told;
use crate::turn::Turn;
use atom_record::Atom;
use config_links::LMetric;
use known_conditions::{Conditions, InnerKey};

/// What is known of an atom before it acts on inner keys: how many are listed, the key of the condition that it turns,
/// if it is one alone, and the key whose state it tells, if it tells one.
#[derive(Clone, Copy)]
pub struct Before<'t, 's> {
    pub listed: usize,
    pub turn: Option<&'t Turn<'t>>,
    pub told: Option<&'s Told<'s>>,
}

/// What stays after an atom of the inner keys that were there before it.
#[derive(Clone, Copy)]
pub enum Stays<'t, 's> {
    /// All that is so of the keys before this place. One that the atom appended stands from there on.
    Keys(usize),
    /// The same, but for the keys by whose values the link asks for the key that turned.
    Others(&'t Turn<'t>, usize),
    /// The truths of all, and all that is so of the keys that aren't sliced by the state that is told.
    OtherStates(&'s Told<'s>, usize),
    /// Their truths. The keys for which they count may be others.
    Truths,
    /// Nothing: each is asked.
    Nothing,
}

impl Stays<'_, '_> {
    /// The place from which on inner keys are asked.
    pub fn first_asked(self) -> usize
        ensures { result ≡ first_asked self.entry }
    {
        match self {
            Stays::Keys(listed) => listed,
            Stays::Others(..) | Stays::OtherStates(..) | Stays::Truths | Stays::Nothing => 0,
        }
    }

    /// Whether each key is asked for its truth.
    pub fn is_nothing(self) -> bool
        ensures { result ≡ is_nothing self.entry }
    {
        match self {
            Stays::Nothing => true,
            Stays::Keys(_) | Stays::Others(..) | Stays::OtherStates(..) | Stays::Truths => false,
        }
    }

    /// Whether all that is so of the inner key at a place stays, although others are asked before it and after it.
    pub fn keeps(self, place: usize, inner: &InnerKey<'_>) -> bool
        ensures { result ≡ is_kept self.entry place inner.now.fields.now inner.now.key.now }
    {
        match self {
            Stays::Others(turn, listed) => place < listed && !turn.asks(inner),
            Stays::OtherStates(told, listed) => place < listed && !told.decides(inner),
            Stays::Keys(_) | Stays::Truths | Stays::Nothing => false,
        }
    }
}

/// What stays of a metric's inner keys after an atom: their truths where it doesn't touch the condition, and all where
/// it doesn't tell a state either by which the metric is sliced. Where it turns one key of the condition, all stays but
/// of those that ask for that key; where it tells the state of one key, all but of those that are sliced by it.
pub fn stays_with<'t, 's>(
    metric: &LMetric,
    brought: &Brought<'_>,
    atom: &Atom,
    conditions: &Conditions,
    before: Before<'t, 's>,
) -> Stays<'t, 's>
    ensures { result
        ≡ stays_by (acts_below conditions.now.predicates brought.now.matched.now metric.now.condition)
        (tells_one brought.now.states.now atom.now.id metric.now.slices) before.entry }
{
    let touches = conditions.acts_below(metric.condition, brought.matched);
    let tells = tells_one(brought.states, atom.id, metric.slices.as_slice());
    match (touches, tells) {
        (true, true) => Stays::Nothing,
        (true, false) => others_stay(before),
        (false, true) => truths_stay(before),
        (false, false) => Stays::Keys(before.listed),
    }
}

// What stays where the condition is touched, and no state is told.
fn others_stay<'t, 's>(before: Before<'t, 's>) -> Stays<'t, 's>
    ensures { result ≡ stays_apart before.entry.turn before.entry.listed }
{
    match before.turn {
        Some(turn) => Stays::Others(turn, before.listed),
        None => Stays::Nothing,
    }
}

// What stays where a state is told, and the condition isn't touched.
fn truths_stay<'t, 's>(before: Before<'t, 's>) -> Stays<'t, 's>
    ensures { result ≡ stays_untold before.entry.told before.entry.listed }
{
    match before.told {
        Some(told) => Stays::OtherStates(told, before.listed),
        None => Stays::Truths,
    }
}
