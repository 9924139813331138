//! What a metric that counts keeps of its events between two reports.
#![tactic(auto)]

mod count;
mod flat;
mod laws;

pub use count::CountProducer;
pub use laws::crossings_join;
pub use metric_producer::{Closed, CountCell, Producer, ReadsEvents, Row};
