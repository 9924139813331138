//! Whether a configuration will be taken: its bytes are read, decoded and linked, and one line tells what was found.
#![tactic(auto)]

mod check;
mod error;
mod finding;
mod judging;
mod line;

pub use check::check_config;
pub use error::CheckError;
pub use finding::{EntityCounts, Finding};
