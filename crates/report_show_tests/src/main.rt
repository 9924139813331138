//! Bytes read as reports, and reports printed as JSON: the rows of a table on standard input.
#![tactic(auto)]

mod reports;

use reports::Reports;
use std::io;
use test_tools::told;

fn main(rt: HostRuntime) -> io::Result<()> {
    let text = io::read_to_string(rt.alloc(), rt.stdin())?;
    let lines = told(rt.alloc(), &Reports, text.as_str())?;
    print!(rt; "{lines}")
}
