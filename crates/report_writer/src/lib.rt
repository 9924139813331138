//! Reports as trees, and the one spelling of a tree as bytes.
#![tactic(auto)]

mod atom;
mod key;
mod message;
mod metric;
mod numbers;
mod report;
mod rows;
mod tree;

pub use atom::atom_msg;
pub use report::write;
pub use tree::{
    AlarmTree, AtomBucket, AtomMsg, Drop64, EventTree, GaugeTree, LeafTree, MetricBody, MetricTree,
    NumBucket, NumTree, Part, PartBody, ReportTree,
};
