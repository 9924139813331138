//! Tables of predicates: the rows of a table on standard input.
#![tactic(auto)]

mod keys;
mod played;
mod saved;
mod tables;

use std::io;
use tables::Predicates;
use test_tools::told;

fn main(rt: HostRuntime) -> io::Result<()> {
    let text = io::read_to_string(rt.alloc(), rt.stdin())?;
    let lines = told(rt.alloc(), &Predicates, text.as_str())?;
    print!(rt; "{lines}")
}
