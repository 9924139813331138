//! Instances of one configuration, fed by hand: the rows of a table on standard input.
#![tactic(auto)]

mod bends;
mod engines;
mod fed;
mod feeds;
mod random;
mod saved;
mod shown;

use engines::Engines;
use std::io;
use test_tools::told;

fn main(rt: HostRuntime) -> io::Result<()> {
    let text = io::read_to_string(rt.alloc(), rt.stdin())?;
    let lines = told(rt.alloc(), &Engines, text.as_str())?;
    print!(rt; "{lines}")
}
