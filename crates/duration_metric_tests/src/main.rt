//! Producers of durations: the rows of a table on standard input.
#![tactic(auto)]

mod calls;
mod rows;
mod saved;
mod shown;
mod twins;

use rows::Durations;
use std::io;
use test_tools::told;

fn main(rt: HostRuntime) -> io::Result<()> {
    let text = io::read_to_string(rt.alloc(), rt.stdin())?;
    let lines = told(rt.alloc(), &Durations, text.as_str())?;
    print!(rt; "{lines}")
}
