//! The lane of one metric: its clock and its producer, which gets just the calls that the metric's steps make.
#![tactic(auto)]

mod flat;
mod lane;
mod laws;

pub use lane::Lane;
pub use laws::frames_join;
