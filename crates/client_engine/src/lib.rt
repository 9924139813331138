//! One installed configuration: what it makes of the log, and what its reports show.
#![tactic(auto)]

mod activity;
mod alarms;
mod arriving;
mod brought;
mod first_truth;
mod groups;
mod inner;
mod instance;
mod integers;
mod kinds;
mod lanes;
mod leaves;
mod listeners;
mod live_id;
mod messages;
mod moments;
mod opening;
mod parts;
mod request;
mod samples;
mod saved;
mod slices;
mod snapshots;
mod state_drops;
mod stays;
mod told;
mod track;
mod tracks;
mod turn;
mod turns;
mod watches;

pub use instance::{Instance, LogView};
pub use live_id::LiveId;
pub use request::ReportRequest;
