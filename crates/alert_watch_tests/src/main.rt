//! Watches of alerts and what they tell: the rows of a table on standard input.
#![tactic(auto)]

mod saved;
mod shown;
mod steps;
mod watches;

use std::io;
use test_tools::told;
use watches::Watches;

fn main(rt: HostRuntime) -> io::Result<()> {
    let text = io::read_to_string(rt.alloc(), rt.stdin())?;
    let lines = told(rt.alloc(), &Watches, text.as_str())?;
    print!(rt; "{lines}")
}
