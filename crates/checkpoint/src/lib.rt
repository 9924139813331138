//! A hub as bytes that outlive the program, and a hub from such bytes, which goes on as if it hadn't been cut.
#![tactic(auto)]

mod error;
mod form;

pub use error::{ResumeError, SaveError};
pub use form::{MOST_SAVED, resume, save};
