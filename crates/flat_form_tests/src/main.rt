//! Items, whether they can be spelled and in how many bytes: the rows of a table on standard input.
#![tactic(auto)]

mod random;
mod rows;
mod words;

use rows::Spellings;
use std::io;
use test_tools::told;

fn main(rt: HostRuntime) -> io::Result<()> {
    let text = io::read_to_string(rt.alloc(), rt.stdin())?;
    let lines = told(rt.alloc(), &Spellings, text.as_str())?;
    print!(rt; "{lines}")
}
