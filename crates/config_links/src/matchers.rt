//! Matchers, linked.
ghost use Rattle.std.specs.Prelude.{◌≡◌, map};
ghost use Rattle.link_rules.specs.LinkFaults.{Links, first_in};
ghost use Rattle.config_links.specs.LinkReasons.{bad_matcher};
ghost use Rattle.config_links.specs.LinkedForm.{linked_matcher};

use crate::LMatcher;
use crate::reasons::{Reason, is_atom_id, make_fault, operation_in, places_in};
use config_types::{MatcherBody, MatcherDef, are_askable_tests};
use link_rules::{Known, LinkError};
use sd_base::Seq;
use std::alloc::Global;

// A matcher, linked, or its least reason.
fn matcher_in(alloc: Global, known: &Known, def: MatcherDef) -> Result<LMatcher, LinkError>
    ensures { Links result (bad_matcher def) (linked_matcher known.now def) }
{
    let id = def.id;
    match def.body {
        None => Err(LinkError::Fault(make_fault(id, Reason::NoBody))),
        Some(MatcherBody::Combo(combo)) => {
            let op = operation_in(id, combo.op, combo.children.len())?;
            let children = places_in(alloc, known, combo.children.as_slice())?;
            Ok(LMatcher::Combo { op, children })
        }
        Some(MatcherBody::Simple(simple)) => {
            if !is_atom_id(simple.atom_id) {
                return Err(LinkError::Fault(make_fault(id, Reason::NoAtom)));
            }
            if !are_askable_tests(simple.tests.as_slice()) {
                return Err(LinkError::Fault(make_fault(id, Reason::BadTest)));
            }
            Ok(LMatcher::Simple(simple))
        }
    }
}

/// The matchers, linked, or the first reason.
pub fn matchers_in(
    alloc: Global,
    known: &Known,
    defs: Seq<MatcherDef>,
) -> Result<Seq<LMatcher>, LinkError>
    ensures { Links result (first_in bad_matcher defs) (map (linked_matcher known.now) defs) }
{
    let mut matchers = Seq::new(alloc);
    for def in defs.into_vec() {
        matchers.push(matcher_in(alloc, known, def)?)?;
    }
    Ok(matchers)
}
