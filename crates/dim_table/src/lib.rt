//! Tables of so many keys at most, in the order in which the keys first came.
#![tactic(auto)]

mod answer;
mod flat;
mod table;

pub use answer::Admit;
pub use table::{Guarded, MAX_KEYS};
