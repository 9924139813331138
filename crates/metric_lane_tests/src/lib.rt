//! Lanes of counts, fed by hand, by rows that were worked out. There is nothing here but tests.
#![tactic(auto)]

#[cfg(test)]
mod lanes;
#[cfg(test)]
mod steps;
