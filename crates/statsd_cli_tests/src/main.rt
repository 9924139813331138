//! Whole sessions through the engine's top call: the rows of a table on standard input.
#![tactic(auto)]

mod ahead;
mod bent;
mod cuts;
mod faults;
mod forms;
mod notes;
mod outcomes;
mod pieces;
mod sessions;
mod std_streams;
mod streams;
mod wanted;

use sessions::Sessions;
use std::io;
use test_tools::told;

fn main(rt: HostRuntime) -> io::Result<()> {
    let text = io::read_to_string(rt.alloc(), rt.stdin())?;
    let lines = told(rt.alloc(), &Sessions, text.as_str())?;
    print!(rt; "{lines}")
}
