//! What metrics of samples and of events keep between two reports.
#![tactic(auto)]

mod events;
mod flat;
mod gauge;
mod laws;
mod memory;
mod pulled;
mod pulled_flat;
mod repeated;
mod snapshot;

pub use events::EventProducer;
pub use gauge::{KeyedAtom, PushedGauge};
pub use laws::crossings_join;
pub use metric_producer::{Closed, Producer, Row};
pub use pulled::{PulledGauge, SampleSpec};
pub use snapshot::SnapAtoms;
