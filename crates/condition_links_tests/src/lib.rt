//! Conditions and links, by rows that were worked by hand. There is nothing here but tests.
#![tactic(auto)]

#[cfg(test)]
mod binds;
#[cfg(test)]
mod conditions;
#[cfg(test)]
mod samples;
