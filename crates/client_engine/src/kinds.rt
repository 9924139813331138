//! What each kind of metric has of its own: its lane, what comes to it with a frame, and what a report shows of it.

pub mod counts;
pub mod durations;
pub mod events;
pub mod gauges;
pub mod longest;
pub mod pulled_gauges;
pub mod pulled_values;
pub mod sums;
pub mod values;
