//! How much a hub may ask at a frame, by what is live after the frames before it. Definitions and laws alone.
#![tactic(auto)]

mod few;

pub use few::questions_are_few;
