//! The saved form of an instance is no longer than its history weighs.
#![tactic(auto)]

mod short;

pub use short::saved_forms_are_short;
