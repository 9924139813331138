//! Producers of values: the rows of a table on standard input.
#![tactic(auto)]

mod calls;
mod forms;
mod pulled;
mod pushed;
mod rows;
mod shown;

use rows::Values;
use std::io;
use test_tools::told;

fn main(rt: HostRuntime) -> io::Result<()> {
    let text = io::read_to_string(rt.alloc(), rt.stdin())?;
    let lines = told(rt.alloc(), &Values, text.as_str())?;
    print!(rt; "{lines}")
}
