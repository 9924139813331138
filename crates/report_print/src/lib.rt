//! A report printed as JSON: its bytes are read from an input, and its line goes to an output.
#![tactic(auto)]

mod error;
mod print;

pub use error::{PrintError, ReportFault};
pub use print::print_report;
