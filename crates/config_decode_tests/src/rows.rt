//! What the rows of the table are asked.
use super::answers::run_config;
use super::buckets::run_bucket;
use super::messages::{run_fault, run_message, run_varints};
use super::writers::run_writer;
use std::alloc::{AllocError, Global};
use test_tools::{Row, Table, Tester};

/// The table of configurations, messages, numbers and buckets.
pub struct Configurations;

impl Table for Configurations {
    fn marks(&self) -> &'static str {
        "config matchers predicates states events counts values gauges durations no_report alerts items fault bucket \
        message depth entered fields varints number rest put written of text"
    }

    fn run(&self, alloc: Global, tester: &mut Tester, row: &Row<'_>) -> Result<(), AllocError> {
        if row.has("config") {
            return run_config(alloc, tester, row);
        }
        if row.has("message") {
            return run_message(alloc, tester, row);
        }
        if row.has("bucket") {
            return run_bucket(tester, row);
        }
        run_part(alloc, tester, row)
    }
}

/// Runs a row of a part of a message.
fn run_part(alloc: Global, tester: &mut Tester, row: &Row<'_>) -> Result<(), AllocError> {
    if row.has("varints") {
        return run_varints(alloc, tester, row);
    }
    if row.has("put") {
        return run_writer(alloc, tester, row);
    }
    if row.has("text") {
        return run_fault(alloc, tester, row);
    }
    tester.differs("nothing that can be run", "")
}
