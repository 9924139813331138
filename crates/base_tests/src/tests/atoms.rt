//! Atoms, values and keys. All rows were worked by hand.
mod copies;
mod keys;
mod numbers;
mod payloads;
mod texts;
