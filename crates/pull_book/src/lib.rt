//! The book of recorded pulls: the last snapshot of each pulled id.
#![tactic(auto)]

mod book;
mod flat;
mod recorded;

pub use book::{MAX_IDS, PullBook};
