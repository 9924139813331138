//! The session of the word `load`: its frames, one after another, as a seed and a number of steps make them.
#![tactic(auto)]

mod frame;
mod numbers;
mod session;
mod steps;

pub use frame::LoadFrame;
pub use session::{LoadFrames, MOST_FRAMES, load_frame};
