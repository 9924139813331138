//! Calls of a producer of counts: the rows of a table on standard input.
#![tactic(auto)]

mod calls;
mod counts;
mod shown;

use counts::Counts;
use std::io;
use test_tools::told;

fn main(rt: HostRuntime) -> io::Result<()> {
    let text = io::read_to_string(rt.alloc(), rt.stdin())?;
    let lines = told(rt.alloc(), &Counts, text.as_str())?;
    print!(rt; "{lines}")
}
