//! Whether a metric's links are to predicates that its condition asks.
ghost use Rattle.std.specs.Prelude.{◌≡◌, ◌<◌, length, map, slice_index_or, false, Some, IfOk};
ghost use Rattle.std.specs.List.{list_all};
ghost use Rattle.link_graph.specs.Links.{AreInRange};
ghost use Rattle.link_rules.specs.EntityIds.{set_ids};
ghost use Rattle.config_links.specs.declared.sets.LinkSets.{LinkSets};
ghost use Rattle.config_links.specs.LinkScopes.{named_predicates};
ghost use Rattle.config_links.specs.MetricLinks.{named_condition, is_reached, condition_place, is_asked, are_asked, AreMarked};

use crate::reasons::place_of_option;
use crate::scope::Scope;
use crate::sets::LinkSets;
use crate::{LPredBody, LPredicate};
use distinct::first_repeat;
use link_graph::{Node, reached_from};
use sd_base::Seq;
use std::alloc::{AllocError, Global};

impl Node for LPredicate {
    ghost use Rattle.config_links.specs.LinkScopes.{named_predicates};

    ghost names = { named_predicates };

    fn children(&self) -> &[u32] {
        match &self.body {
            LPredBody::Simple { .. } => &[],
            LPredBody::Combo { children, .. } => children.as_slice(),
        }
    }
}

// Of each predicate, whether the one at a place reaches it.
fn marks_of(alloc: Global, predicates: &[LPredicate], from: u32) -> Result<Seq<bool>, AllocError>
    requires { AreInRange (map named_predicates predicates.now) }
    ensures { IfOk result (AreMarked predicates.now (Some from)) }
{
    if from as usize >= predicates.len() {
        return Ok(Seq::new(alloc));
    }
    reached_from(alloc, predicates, from)
}

// Of each predicate, whether that of a condition reaches it.
fn marks_from(
    alloc: Global,
    predicates: &[LPredicate],
    from: Option<u32>,
) -> Result<Seq<bool>, AllocError>
    requires { AreInRange (map named_predicates predicates.now) }
    ensures { IfOk result (AreMarked predicates.now from) }
{
    match from {
        None => Ok(Seq::new(alloc)),
        Some(from) => marks_of(alloc, predicates, from),
    }
}

// The mark of a place.
fn mark_at(marks: &[bool], place: u32) -> bool
    ensures { result ≡ slice_index_or marks.now place false }
{
    match marks.get(place as usize) {
        Some(mark) => *mark,
        None => false,
    }
}

// Whether the predicate at a place is that of a condition, or is reached by it.
fn reaches(scope: &Scope, from: Option<u32>, marks: &[bool], to: u32) -> bool
    requires marked { AreMarked scope.now.predicates from marks.now }
    requires within { to < length scope.now.predicates }
    ensures { result ≡ is_reached scope.now.predicates from to }
{
    match from {
        Some(from) => from == to || mark_at(marks, to),
        None => false,
    }
}

// Whether a link's condition is a simple predicate that the metric's condition is or reaches.
fn asks(
    scope: &Scope,
    condition: Option<i64>,
    from: Option<u32>,
    marks: &[bool],
    link: Option<i64>,
) -> bool
    requires from { from ≡ condition_place scope.now condition }
    requires marked { AreMarked scope.now.predicates from marks.now }
    ensures { result ≡ is_asked scope.now condition link }
{
    let Some(link) = link else {
        return false;
    };
    if scope.spec_of(link).is_none() {
        return false;
    }
    reaches(scope, from, marks, scope.ids.predicates.locate(link))
}

// Whether the condition of each link is asked.
fn all_asked(
    scope: &Scope,
    condition: Option<i64>,
    from: Option<u32>,
    marks: &[bool],
    links: &[LinkSets],
) -> bool
    requires from { from ≡ condition_place scope.now condition }
    requires marked { AreMarked scope.now.predicates from marks.now }
    ensures { result ≡ list_all (λ (sets : LinkSets).
        is_asked scope.now condition sets.condition) links.now }
{
    for sets in links {
        if !asks(scope, condition, from, marks, sets.condition) {
            return false;
        }
    }
    true
}

// The conditions that links name.
fn named_conditions(alloc: Global, links: &[LinkSets]) -> Result<Seq<i64>, AllocError>
    ensures { IfOk result (λ ids. ids ≡ set_ids (map named_condition links.now)) }
{
    let mut ids = Seq::new(alloc);
    for sets in links {
        if let Some(id) = sets.condition {
            ids.push(id)?;
        }
    }
    Ok(ids)
}

/// Whether the condition of each link is asked where that of the metric is, and no two links have the same.
pub fn judge_conditions(
    alloc: Global,
    scope: &Scope,
    condition: Option<i64>,
    links: &[LinkSets],
) -> Result<bool, AllocError>
    requires { AreInRange (map named_predicates scope.now.predicates) }
    ensures { IfOk result (λ asked. asked ≡ are_asked scope.now condition links.now) }
{
    if links.is_empty() {
        return Ok(true);
    }
    let from = place_of_option(&scope.ids.predicates, condition);
    let marks = marks_from(alloc, scope.predicates.as_slice(), from)?;
    if !all_asked(scope, condition, from, marks.as_slice(), links) {
        return Ok(false);
    }
    let named = named_conditions(alloc, links)?;
    Ok(first_repeat(alloc, named.as_slice())?.is_none())
}
