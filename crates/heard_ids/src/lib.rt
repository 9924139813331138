//! The frames that a linked configuration hears, so that it may be left alone at all others.
#![tactic(auto)]

mod hearing;
mod heeded;
mod idle;
mod laws;

pub use hearing::Hearing;
pub use laws::unheard_atoms_hold_nothing;
