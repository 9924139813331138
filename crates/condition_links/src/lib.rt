//! Conditions in three values: combinations of predicates over what their tables say, and links to what is counted.
#![tactic(auto)]

mod apart;
mod joined;
mod laws;
mod links;
mod search;
mod steps;

pub use apart::{asks_for, reads_as};
pub use joined::combine3;
pub use laws::each_truth_is_made_of_others;
pub use links::{bind_atom, bind_atom_into, bind_key, bind_key_into, read_key, read_key_into};
pub use search::query;
pub use steps::Steps;
