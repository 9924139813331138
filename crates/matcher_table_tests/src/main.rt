//! Runs rows of steps on a table of matchers, and 40,000 steps by chance beside a plain model.
#![tactic(auto)]

mod chance;
mod judge;
mod model;
mod rows;
mod shared;

use std::io;

fn main(rt: HostRuntime) -> io::Result<()> {
    let alloc = rt.alloc();
    let mut rows: u64 = 0;
    let mut differ: u64 = 0;
    for line in rt.lines(alloc) {
        let line = line?;
        let text = line.as_str();
        if text.is_empty() || text.starts_with('#') {
            continue;
        }
        rows = rows.saturating_add(1);
        if let Some(difference) = rows::difference(alloc, text)? {
            differ = differ.saturating_add(1);
            println!(rt; "{text}: {difference}")?;
        }
    }
    println!(rt; "{rows} rows, {differ} differ")?;
    let told = chance::run(alloc, 40_000)?;
    println!(rt; "{told}")?;
    Ok(())
}
