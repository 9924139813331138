//! How keys are hashed: quickly, since a key is a number or a few.
#![tactic(auto)]

mod hasher;

pub use hasher::{KeyHasher, KeyHashing};
