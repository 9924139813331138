//! Configurations, and what they are linked to or why they are refused: the rows of a table on standard input.
#![tactic(auto)]

mod additions;
mod answers;
mod texts;

use answers::Links;
use std::io;
use test_tools::told;

fn main(rt: HostRuntime) -> io::Result<()> {
    let text = io::read_to_string(rt.alloc(), rt.stdin())?;
    let lines = told(rt.alloc(), &Links, text.as_str())?;
    print!(rt; "{lines}")
}
