//! What a configuration holds of the table of matchers: a slot for each of its own.
#![tactic(auto)]

mod held;
mod laws;
mod order;

pub use held::HeldSlots;
pub use laws::{
    held_slots_have_their_trees, held_slots_have_their_truths, others_keep_what_is_held,
};
