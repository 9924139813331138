//! Matchers and atoms: the rows of a table on standard input.
#![tactic(auto)]

mod client;
mod joined;
mod matchers;

use matchers::Matchers;
use std::io;
use test_tools::told;

fn main(rt: HostRuntime) -> io::Result<()> {
    let text = io::read_to_string(rt.alloc(), rt.stdin())?;
    let lines = told(rt.alloc(), &Matchers, text.as_str())?;
    print!(rt; "{lines}")
}
