//! A report's tree as JSON: as a value, and as text in one line.
#![tactic(auto)]

mod atoms;
mod key;
mod metric;
mod report;
mod rows;
mod shown;
mod text;

pub use report::{json, json_text};
