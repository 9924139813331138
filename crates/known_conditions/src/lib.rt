//! The predicates of a configuration: what atoms make of them, and what metrics ask of them.
#![tactic(auto)]

mod asked;
mod conditions;
mod events;
mod flat_lists;
mod key_room;
mod lists;
mod marks;
mod matched;
mod tables;
mod touchers;

pub use asked::{Asked, InnerKey, Nothing};
pub use conditions::Conditions;
pub use flat_lists::{flatten_list, show_list};
pub use key_room::{KeyRoom, atom_key_into};
pub use lists::{add_if, find_matched, list_under};
pub use marks::{is_marked, no_marks};
pub use matched::{is_true_at, is_true_if_named};
pub use tables::{add_if_any, event_by, spec_of};
