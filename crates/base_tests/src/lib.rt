//! Streams, atoms, sessions and replies by their bytes; the flat form, clocks and tables. There is nothing here but
//! tests.
#![tactic(auto)]

#[cfg(test)]
mod tests;
