//! Which matchers touch a predicate: those that start or stop it, or one that is reached from it. They are found once,
//! when the configuration is installed.
ghost use Rattle.std.specs.Prelude.{◌≡◌, ◌≤◌, ◌<◌, ◌==◌, ◌||◌, ◌++◌, [], length, if◌then◌else◌, OnOk, IfOk};
ghost use Rattle.link_graph.specs.Links.{AreInRange};
ghost use Rattle.config_links.specs.OwnMatchers.{predicate_matchers};
ghost use Rattle.config_links.specs.SoundConfig.{most_predicates};
ghost use Rattle.condition_links.specs.Conditions.{predicate_names};
ghost use Rattle.metric_meaning.specs.Histories.{truth_at};
ghost use Rattle.metric_meaning.specs.Touched.{names_atom_itself, timed_predicate};
ghost use Rattle.known_conditions.specs.KeptPredicates.{acting_matchers};
ghost use Rattle.known_conditions.specs.Lists.{AreListed};
ghost use Rattle.known_conditions.specs.Touchers.{touchers, all_touchers, one_holds};

use crate::lists::list_under;
use crate::matched::{is_true_at, is_true_if_named};
use config_links::{LKind, LMetric, LPredBody, LPredicate};
use link_graph::reached_from;
use sd_base::Seq;
use std::alloc::{AllocError, Global};

/// Of each predicate, the matchers that start or stop it, or one that is reached from it.
pub fn touchers_of_all(
    alloc: Global,
    predicates: &[LPredicate],
) -> Result<Seq<Seq<u32>>, AllocError>
    requires few { length predicates.now ≤ most_predicates }
    requires in_range { AreInRange (predicate_names predicates.now) }
    ensures { IfOk result (λ lists. lists ≡ all_touchers predicates.now) }
{
    let mut lists = Seq::new(alloc);
    for root in 0..predicates.len() {
        let list = touchers_of(alloc, predicates, root as u32)?;
        lists.push(list)?;
    }
    Ok(lists)
}

/// Under each matcher, the places of the predicates that it starts or stops.
pub fn actors_of_all(
    alloc: Global,
    predicates: &[LPredicate],
) -> Result<Vec<Seq<usize>>, AllocError>
    ensures { IfOk result (λ lists. AreListed lists.items acting_matchers predicates.now) }
{
    let mut lists = Vec::new(alloc);
    for place in 0..predicates.len() {
        let mut matchers = Seq::new(alloc);
        add_matchers(&mut matchers, &predicates[place].body, true)?;
        list_under(alloc, &mut lists, matchers.as_slice(), place)?;
    }
    Ok(lists)
}

// The matchers that start or stop a predicate, or one that is reached from it.
fn touchers_of(alloc: Global, predicates: &[LPredicate], root: u32) -> Result<Seq<u32>, AllocError>
    requires few { length predicates.now ≤ most_predicates }
    requires in_range { AreInRange (predicate_names predicates.now) }
    requires here { root < length predicates.now }
    ensures { IfOk result (λ list. list ≡ touchers predicates.now root) }
{
    let marks = reached_from(alloc, predicates, root)?;
    let mut list = Seq::new(alloc);
    for place in 0..predicates.len() {
        let below = is_below(marks.as_slice(), root, place as u32);
        add_matchers(&mut list, &predicates[place].body, below)?;
    }
    Ok(list)
}

// Whether a place is the root, or has the mark of one that is reached.
fn is_below(marks: &[bool], root: u32, place: u32) -> bool
    ensures { result ≡ ((root == place) || truth_at place marks.now) }
{
    root == place || is_true_at(marks, place)
}

// Adds the matchers that start or stop a predicate, if it is one of those that are looked for.
fn add_matchers(list: &mut Seq<u32>, body: &LPredBody, below: bool) -> Result<(), AllocError>
    ensures { OnOk result
        (list.new ≡ list.old ++ (if below then predicate_matchers body.now else [])) }
{
    if below {
        body.add_matchers(list)
    } else {
        Ok(())
    }
}

/// Whether one of these matchers holds.
pub fn one_holds(matchers: &[u32], matched: &[bool]) -> bool
    ensures { result ≡ one_holds matched.now matchers.now }
{
    matchers.iter().any(|matcher| is_true_at(matched, *matcher))
}

/// Whether a matcher holds that a metric names itself: that of what it counts, or its trigger.
pub fn names_atom_itself(metric: &LMetric, matched: &[bool]) -> bool
    ensures { result ≡ names_atom_itself metric.now matched.now }
{
    match &metric.kind {
        LKind::PulledGauge { trigger, .. } => {
            is_true_at(matched, metric.what) || is_true_if_named(matched, *trigger)
        }
        LKind::SumDuration { .. } | LKind::MaxSparse { .. } => false,
        LKind::Count { .. }
        | LKind::PushedValue { .. }
        | LKind::PulledValue { .. }
        | LKind::PushedGauge { .. }
        | LKind::Event => is_true_at(matched, metric.what),
    }
}

/// The place of the predicate that a duration times.
pub fn timed_predicate(metric: &LMetric) -> Option<u32>
    ensures { result ≡ timed_predicate metric.now }
{
    match &metric.kind {
        LKind::SumDuration { .. } | LKind::MaxSparse { .. } => Some(metric.what),
        LKind::Count { .. }
        | LKind::PushedValue { .. }
        | LKind::PulledValue { .. }
        | LKind::PushedGauge { .. }
        | LKind::PulledGauge { .. }
        | LKind::Event => None,
    }
}
