//! Lists without repeats, which know the place of each item.
#![tactic(auto)]

mod items;
mod repeats;

pub use items::Distinct;
pub use repeats::{first_repeat, without_repeat_items_differ};
