//! Kept rows, by rows that were worked by hand. There is nothing here but tests.
#![tactic(auto)]

#[cfg(test)]
mod rows;
#[cfg(test)]
mod sack;
#[cfg(test)]
mod saved;
