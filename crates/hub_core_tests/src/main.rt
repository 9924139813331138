//! The hub of all clients under judges of the tests' own: the rows of a table on standard input.
#![tactic(auto)]

mod bends;
mod hubs;
mod judges;
mod mixed;
mod saving;
mod session;
mod tried;

use hubs::Hubs;
use std::io;
use test_tools::told;

fn main(rt: HostRuntime) -> io::Result<()> {
    let text = io::read_to_string(rt.alloc(), rt.stdin())?;
    let lines = told(rt.alloc(), &Hubs, text.as_str())?;
    print!(rt; "{lines}")
}
