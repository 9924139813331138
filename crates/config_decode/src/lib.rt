//! A decoder of configurations: from the bytes of a `StatsdConfig` to the tree of what it says.
#![tactic(auto)]

mod alert;
mod decoder;
mod fault;
mod field_matcher;
mod field_test;
mod laws;
mod matcher;
mod message;
mod metric;
mod numbers;
mod predicate;
mod profile;
mod scalar;
mod state;
mod tree;
mod walk;

pub use decoder::{MAX_BYTES, decode};
pub use fault::DecodeFault;
pub use laws::{
    passed_trees_are_read_to_their_end, payloads_are_read_as_one, the_walk_passes_whole_messages,
};
