//! The book of states: for each id of state atoms, the state that the log last gave each key; and slices by a state.
#![tactic(auto)]

mod book;
mod flat;
mod slices;
mod states;
mod told;

pub use book::{MAX_IDS, StateBook};
pub use slices::slice;
pub use states::MAX_STATE_KEYS;
pub use told::{resets_states, told_key};
