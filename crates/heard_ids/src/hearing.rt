//! What a configuration hears.
ghost use Rattle.std.specs.Prelude.{◌≡◌, ◌++◌, map, IfOk, OnOk};
ghost use Rattle.std.specs.List.{flat_map};
ghost use Rattle.matcher_eval.specs.AtomTests.{number_set};
ghost use Rattle.config_links.specs.SoundConfig.{IsSoundConfig};
ghost use Rattle.config_links.specs.declared.linked.LState.{LState};
ghost use Rattle.heard_ids.specs.Hearing.{matched_id, heard_ids, hears_all};

use crate::heeded::{heeded_matchers, some_holds};
use crate::idle::silent_truths;
use config_links::{LMatcher, LState, Linked};
use config_types::SimpleMatcher;
use sd_base::Seq;
use std::alloc::{AllocError, Global};

/// The ids whose frames a configuration hears, and whether it hears every atom.
#[derive(Drop)]
pub struct Hearing {
    /// Those of its simple matchers and of its states, in config order; one may come twice.
    pub ids: Seq<u32>,
    /// One of its predicates or metrics heeds a matcher that holds where no simple one does.
    pub all: bool,
}

impl Hearing {
    /// What a configuration hears.
    pub fn of(alloc: Global, linked: &Linked) -> Result<Hearing, AllocError>
        requires sound { IsSoundConfig linked.now }
        ensures ids { IfOk result (λ it. it.ids ≡ heard_ids linked.now) }
        ensures all { IfOk result (λ it. it.all ≡ hears_all linked.now) }
    {
        let mut ids = Seq::new(alloc);
        add_matched(&mut ids, linked.matchers.as_slice())?;
        add_told(&mut ids, linked.states.as_slice())?;
        let all = is_heeding_all(alloc, linked)?;
        Ok(Hearing { ids, all })
    }
}

// Adds the ids of simple matchers.
fn add_matched(ids: &mut Seq<u32>, matchers: &[LMatcher]) -> Result<(), AllocError>
    ensures { OnOk result (ids.new ≡ ids.old ++ flat_map matched_id matchers.now) }
{
    for matcher in matchers {
        add_id(ids, matcher)?;
    }
    Ok(())
}

// Adds the id of a matcher, if it is a simple one.
fn add_id(ids: &mut Seq<u32>, matcher: &LMatcher) -> Result<(), AllocError>
    ensures { OnOk result (ids.new ≡ ids.old ++ matched_id matcher.now) }
{
    match matcher {
        LMatcher::Simple(simple) => ids.push(id_of(simple)),
        LMatcher::Combo { .. } => Ok(()),
    }
}

// The id of the atoms that a matcher means; 0 where it names none, which is no atom's.
fn id_of(matcher: &SimpleMatcher) -> u32
    ensures { result ≡ number_set matcher.now.atom_id }
{
    match matcher.atom_id {
        Some(id) if id >= 0 => id.cast_unsigned(),
        _ => 0,
    }
}

// Adds the ids of the atoms that tell states.
fn add_told(ids: &mut Seq<u32>, states: &[LState]) -> Result<(), AllocError>
    ensures { OnOk result (ids.new ≡ ids.old ++ map (λ (state : LState). state.atom_id) states.now) }
{
    for state in states {
        ids.push(state.atom_id)?;
    }
    Ok(())
}

// Whether one of the matchers that are heeded holds where no simple one does.
fn is_heeding_all(alloc: Global, linked: &Linked) -> Result<bool, AllocError>
    requires sound { IsSoundConfig linked.now }
    ensures { IfOk result (λ all. all ≡ hears_all linked.now) }
{
    let matchers = linked.matchers.as_slice();
    let truths = silent_truths(alloc, matchers)?;
    let heeded = heeded_matchers(alloc, linked)?;
    Ok(some_holds(heeded.as_slice(), truths.as_slice()))
}
