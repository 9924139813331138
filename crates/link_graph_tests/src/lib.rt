//! References between places, and lists without repeats, by tables of rows. There is nothing here but tests.
#![tactic(auto)]

#[cfg(test)]
mod tests;
