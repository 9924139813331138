//! The engine's top call: it replays a recorded session and answers each command, saves a session or goes on with a
//! saved one, checks a configuration, prints a report, or answers a session of its own and counts.
#![tactic(auto)]

mod command;
mod cut;
mod ending;
mod isolation;
mod load;
mod note;
mod replay;
mod reply_len;
mod resume;
mod save;
mod saved_form;
mod serving;
mod top;

pub use command::Command;
pub use cut::sessions_may_be_cut;
pub use ending::{
    Ending, STATUS_BAD_SESSION, STATUS_DONE, STATUS_NO_MEMORY, STATUS_READ_FAULT, STATUS_REFUSED,
    STATUS_REPORT_REFUSED, STATUS_SAVE_REFUSED, STATUS_USAGE, STATUS_WRITE_FAULT, SaveFault,
};
pub use isolation::clients_are_isolated;
pub use note::write_note;
pub use top::statsd_top;
