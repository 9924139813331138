//! The alert of one metric of counts: how often each key came in the last parts, and the alarms that this set off.
#![tactic(auto)]

mod alarm;
mod flat;
mod restored;
mod watch;
mod window;

pub use alarm::{Alarm, Alarms, MAX_ALARMS};
pub use watch::AlertWatch;
