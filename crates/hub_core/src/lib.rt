//! All clients with their live configurations, one frame at a time, under any judge.
#![tactic(auto)]

mod books;
mod carried;
mod configs;
mod hub;
mod live_instance;
mod lives;
mod log_clock;
mod logging;
mod places;
mod settling;
mod slots;

pub use hub::Hub;
