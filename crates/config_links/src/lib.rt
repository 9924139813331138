//! A configuration whose references are places in config order, and what an entity of one can't be.
#![tactic(auto)]

mod activations;
mod alerts;
mod asked;
mod kinds;
mod laws;
mod linked;
mod linker;
mod links;
mod matchers;
mod metrics;
mod nodes;
mod own_matchers;
mod predicates;
mod reasons;
mod scope;
mod sets;
mod slices;
mod states;
mod table;

pub use laws::{
    combinations_have_children, each_entity_is_sound, linked_forms_are_sound, references_end,
    tables_have_their_leaves,
};
pub use link_rules::{LinkError, LinkFault, MOST_PREDICATES};
pub use linked::{
    CondTree, LActivation, LAlert, LGroup, LKind, LLink, LMatcher, LMetric, LPredBody, LPredicate,
    LSlice, LState, Linked,
};
pub use linker::link;
