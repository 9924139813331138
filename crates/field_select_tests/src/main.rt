//! Trees of field numbers and atoms: the rows of a table on standard input.
#![tactic(auto)]

mod selections;
mod texts;

use selections::Selections;
use std::io;
use test_tools::told;

fn main(rt: HostRuntime) -> io::Result<()> {
    let text = io::read_to_string(rt.alloc(), rt.stdin())?;
    let lines = told(rt.alloc(), &Selections, text.as_str())?;
    print!(rt; "{lines}")
}
