//! The program with the word `save`, which the gate runs on a stored session.
#![tactic(auto)]

use sd_io::StdSink;
use statsd_run::run;
use std::env;
use std::process::ExitCode;

fn main(rt: HostRuntime) -> ExitCode {
    run(
        rt.alloc(),
        env::args(&rt),
        rt.stdin(),
        &mut StdSink::new(rt.stdout()),
        &mut StdSink::new(rt.stderr()),
    )
}
