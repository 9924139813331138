//! Predicates, linked.
ghost use Rattle.std.specs.Prelude.{◌≡◌, map};
ghost use Rattle.link_rules.specs.LinkFaults.{Links, first_in};
ghost use Rattle.link_rules.specs.EntityLimits.{bound_or_default};
ghost use Rattle.config_links.specs.LinkReasons.{bad_predicate};
ghost use Rattle.config_links.specs.LinkedForm.{linked_predicate};

use crate::reasons::{Reason, make_fault, operation_in, place_of_option, places_in, set_in};
use crate::{LPredBody, LPredicate};
use config_types::{PredSpec, PredicateBody, PredicateDef};
use link_rules::{Known, LinkError};
use sd_base::Seq;
use std::alloc::Global;

/// The bound of a predicate or a metric that names none.
const DEFAULT_BOUND: u32 = 800;

/// The bound that is meant.
pub fn choose_bound(bound: Option<i32>) -> u32
    ensures { result ≡ bound_or_default bound }
{
    match bound {
        Some(bound) if bound >= 0 => bound as u32,
        _ => DEFAULT_BOUND,
    }
}

// A predicate, linked, or its least reason.
fn predicate_in(
    alloc: Global,
    matchers: &Known,
    predicates: &Known,
    def: PredicateDef,
) -> Result<LPredicate, LinkError>
    ensures { Links result (bad_predicate def)
        (linked_predicate matchers.now predicates.now def) }
{
    let id = def.id;
    let body = match def.body {
        None => return Err(LinkError::Fault(make_fault(id, Reason::NoBody))),
        Some(PredicateBody::Combo(combo)) => {
            let op = operation_in(id, combo.op, combo.children.len())?;
            let children = places_in(alloc, predicates, combo.children.as_slice())?;
            LPredBody::Combo { op, children }
        }
        Some(PredicateBody::Simple(simple)) => {
            let dims = set_in(alloc, id, &simple.dims)?;
            // There are at most as many leaves as paths of two fields and a position, so they fit.
            let Ok(leaves) = u32::try_from(dims.leaves.len()) else {
                return Err(LinkError::Memory);
            };
            let spec = PredSpec {
                nesting: simple.nesting,
                unknown: simple.unknown,
                bound: choose_bound(simple.bound),
                leaves,
            };
            LPredBody::Simple {
                start: place_of_option(matchers, simple.start),
                stop: place_of_option(matchers, simple.stop),
                stop_all: place_of_option(matchers, simple.stop_all),
                dims,
                spec,
            }
        }
    };
    Ok(LPredicate {
        id: id.unwrap_or(0),
        body,
    })
}

/// The predicates, linked, or the first reason.
pub fn predicates_in(
    alloc: Global,
    matchers: &Known,
    predicates: &Known,
    defs: Seq<PredicateDef>,
) -> Result<Seq<LPredicate>, LinkError>
    ensures { Links result (first_in bad_predicate defs)
        (map (linked_predicate matchers.now predicates.now) defs) }
{
    let mut linked = Seq::new(alloc);
    for def in defs.into_vec() {
        linked.push(predicate_in(alloc, matchers, predicates, def)?)?;
    }
    Ok(linked)
}
