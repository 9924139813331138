//! What a check tells of a configuration. There is nothing here but tests.
#![tactic(auto)]

#[cfg(test)]
mod tests;
