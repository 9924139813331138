//! References between places: an order in which each stands after what it names, what a place reaches, and the first
//! place on a cycle.
#![tactic(auto)]

mod laws;
mod node;
mod order;
mod range;
mod reach;
mod walk;

pub use laws::{
    an_order_has_no_cycle, one_place_is_first, places_stand_for_ids, so_many_references_are_enough,
    values_come_from_below, without_a_cycle_all_end,
};
pub use node::Node;
pub use order::order_of;
pub use range::are_in_range;
pub use reach::{first_on_cycle, reached_from};
