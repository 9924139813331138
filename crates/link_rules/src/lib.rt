//! Whether a configuration is within its limits, and whether its references lead somewhere.
#![tactic(auto)]

mod cycles;
mod entities;
mod entity;
mod fault;
mod ids;
mod known;
mod limits;
mod names;
mod rules;

pub use entities::{Entities, GaugeParts, Kind, Metric, ValueParts, gather};
pub use fault::{LinkError, LinkFault};
pub use known::{Ids, Known};
pub use limits::{MOST_PREDICATES, choose_number, count_samples};
pub use names::{find_unknown_child, judge_watched};
pub use rules::{checked_ids, refuse};
