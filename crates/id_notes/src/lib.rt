//! For each id of atoms the names of those that hear its frames, so that a frame comes to these alone.
#![tactic(auto)]

mod marks;
mod notes;

pub use notes::Notes;
