//! The truth of each matcher of a configuration on an atom, under any judge.
#![tactic(auto)]

mod laws;

pub use laws::truths_come_from_children;
