//! The calls that the steps of a metric make of its producer, and that they mean the steps: definitions and laws alone.
#![tactic(auto)]
