//! Whether a matcher holds on an atom: a judge says it of simple matchers, and operations join what it said.
#![tactic(auto)]

mod conditions;
mod entries;
mod field_judge;
mod fields;
mod judge;
mod operation;

pub use field_judge::FieldJudge;
pub use judge::Judge;
pub use operation::combine;
