//! Configurations and messages by their bytes, and what they mean: the rows of a table on standard input.
#![tactic(auto)]

mod answers;
mod buckets;
mod fields;
mod messages;
mod rows;
mod texts;
mod writers;

use rows::Configurations;
use std::io;
use test_tools::told;

fn main(rt: HostRuntime) -> io::Result<()> {
    let text = io::read_to_string(rt.alloc(), rt.stdin())?;
    let lines = told(rt.alloc(), &Configurations, text.as_str())?;
    print!(rt; "{lines}")
}
