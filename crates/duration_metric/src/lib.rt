//! What metrics of durations keep of their inner keys between two reports.
#![tactic(auto)]

mod change;
mod counted;
mod flat;
mod inner;
mod laws;
mod memory;
mod sparse;
mod sparse_books;
mod sparse_flat;
mod sparse_keys;
mod sum;
mod sum_flat;
mod sum_producer;
mod tally;

pub use change::{InnerChange, InnerDelta, InnerEvent};
pub use laws::crossings_join;
pub use metric_producer::{Closed, Producer, ReadsEvents, Row};
pub use sparse::MaxProducer;
pub use sum_producer::SumProducer;
