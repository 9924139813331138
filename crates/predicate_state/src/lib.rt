//! Tables of predicates: which keys were started and how often, in three values, and what is asked of them.
#![tactic(auto)]

mod bind;
mod bound;
mod event;
mod flat;
mod table;
mod truth;

pub use bind::{Bind, BindList};
pub use event::PredEvent;
pub use table::PredTable;
pub use truth::Truth;
