//! What is known when metrics are linked.
ghost use Rattle.std.specs.Prelude.{◌≡◌};
ghost use Rattle.field_select.specs.WellFormed.{number_or_zero};

use crate::table::{DimsTable, table_of};
use crate::{LMatcher, LPredBody, LPredicate, LState};
use atom_record::is_pulled;
use config_types::PredSpec;
use link_rules::{Ids, LinkError};
use sd_base::Seq;
use std::alloc::Global;

/// The ids of each kind, and the linked forms at their places.
#[derive(Drop)]
pub struct Scope {
    pub ids: Ids,
    pub matchers: Seq<LMatcher>,
    pub predicates: Seq<LPredicate>,
    pub states: Seq<LState>,
}

/// A number that is set and isn't negative, or 0.
pub fn read_number(number: Option<i32>) -> u32
    ensures { result ≡ number_or_zero number }
{
    match number {
        Some(number) if number > 0 => number as u32,
        _ => 0,
    }
}

impl Scope {
    ghost use Rattle.std.specs.Prelude.{None};
    ghost use Rattle.std.specs.Option.{option_copied};
    ghost use Rattle.link_rules.specs.LinkFaults.{Links};
    ghost use Rattle.config_links.specs.MetricLinks.{table_of};
    ghost use Rattle.config_links.specs.LinkScopes.{predicate_named, spec_in, dims_in, names_pulled, state_atom};

    /// The predicate of an id.
    pub fn find_predicate(&self, id: i64) -> Option<&LPredicate>
        ensures { option_copied result ≡ predicate_named self.now id }
    {
        match self.ids.predicates.place(id) {
            Some(place) => self.predicates.get(place as usize),
            None => None,
        }
    }

    /// How the table of a predicate is kept, where it is a simple one.
    pub fn spec_of(&self, id: i64) -> Option<PredSpec>
        ensures { result ≡ spec_in (predicate_named self.now id) }
    {
        match self.find_predicate(id) {
            None => None,
            Some(predicate) => match &predicate.body {
                LPredBody::Simple { spec, .. } => Some(*spec),
                LPredBody::Combo { .. } => None,
            },
        }
    }

    /// The dimensions of a predicate.
    pub fn dims_of(&self, alloc: Global, id: i64) -> Result<DimsTable, LinkError>
        ensures { Links result None (table_of (dims_in (predicate_named self.now id))) }
    {
        if let Some(predicate) = self.find_predicate(id)
            && let LPredBody::Simple { dims, .. } = &predicate.body
        {
            return Ok(DimsTable {
                atom_id: dims.atom_id,
                leaves: table_of(alloc, dims.leaves.as_slice())?,
            });
        }
        Ok(DimsTable {
            atom_id: 0,
            leaves: table_of(alloc, &[])?,
        })
    }

    /// Whether a matcher is a simple one of an atom that is pulled.
    pub fn is_of_pulled_atom(&self, id: i64) -> bool
        ensures { result ≡ names_pulled self.now id }
    {
        let Some(place) = self.ids.matchers.place(id) else {
            return false;
        };
        match self.matchers.get(place as usize) {
            Some(LMatcher::Simple(simple)) => is_pulled(read_number(simple.atom_id)),
            _ => false,
        }
    }

    /// The atom of a state.
    pub fn find_state_atom(&self, id: i64) -> u32
        ensures { result ≡ state_atom self.now id }
    {
        let Some(place) = self.ids.states.place(id) else {
            return 0;
        };
        match self.states.get(place as usize) {
            Some(state) => state.atom_id,
            None => 0,
        }
    }
}
