//! Matchers that all clients share: equal ones stand in one slot while one of them is live.
#![tactic(auto)]

mod counts;
mod evaluation;
mod hanging;
mod id_lists;
mod index;
mod low_lists;
mod operation;
mod shared;
mod store;
mod table;

pub use shared::SharedMatcher;
pub use table::{MatcherTable, Slot};
