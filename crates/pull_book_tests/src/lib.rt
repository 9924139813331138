//! Recorded pulls, and the snapshots after them. There is nothing here but tests.
#![tactic(auto)]

#[cfg(test)]
mod tests;
