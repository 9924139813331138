//! State atoms, and the states and slices after them: the rows of a table on standard input.
#![tactic(auto)]

mod books;
mod slices;
mod states;

use states::States;
use std::io;
use test_tools::told;

fn main(rt: HostRuntime) -> io::Result<()> {
    let text = io::read_to_string(rt.alloc(), rt.stdin())?;
    let lines = told(rt.alloc(), &States, text.as_str())?;
    print!(rt; "{lines}")
}
