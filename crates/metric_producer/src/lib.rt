//! The law of all kinds of metric: the calls of a producer, which may come after which, and what each makes of it.
#![tactic(auto)]

mod flat;
mod producer;
mod row;
mod weighed;

pub use producer::{Producer, ReadsEvents};
pub use row::{Closed, CountCell, Row};
