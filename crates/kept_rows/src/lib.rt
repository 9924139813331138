//! The rows that a metric keeps between two reports: the first of them, up to a weight, and how many the others are.
#![tactic(auto)]

mod flat;
mod kept;
mod weighed;

pub use kept::KeptRows;
pub use weighed::Weighed;
