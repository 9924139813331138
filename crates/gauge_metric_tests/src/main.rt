//! Calls of producers of samples and of events: the rows of a table on standard input.
#![tactic(auto)]

mod calls;
mod producers;
mod pulled;
mod shown;

use producers::Producers;
use std::io;
use test_tools::told;

fn main(rt: HostRuntime) -> io::Result<()> {
    let text = io::read_to_string(rt.alloc(), rt.stdin())?;
    let lines = told(rt.alloc(), &Producers, text.as_str())?;
    print!(rt; "{lines}")
}
