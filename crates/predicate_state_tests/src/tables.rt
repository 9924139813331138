//! The rows: how a table is kept, what happens, and what it then has.
use super::keys::{binds_of, key_of, table_text};
use super::played::played;
use super::saved::{run_built, run_rebuilt};
use config_types::PredSpec;
use predicate_state::{PredTable, Truth};
use std::alloc::{AllocError, Global};
use test_tools::{Row, Table, Tester, unsigned};

/// The table of tables of predicates.
pub struct Predicates;

impl Table for Predicates {
    fn marks(&self) -> &'static str {
        "spec events has size count true unknown false any_true any_unknown any_false items built"
    }

    fn run(&self, alloc: Global, tester: &mut Tester, row: &Row<'_>) -> Result<(), AllocError> {
        if row.has("items") {
            return run_built(alloc, tester, row);
        }
        match spec_of(row.word("spec")) {
            Some(spec) => run_spec(alloc, tester, row, spec),
            None => tester.differs("no spec", row.word("spec")),
        }
    }
}

/// The spec of a text: whether starts are counted, what keys are at first, the most keys, and how many leaves each has.
fn spec_of(text: &str) -> Option<PredSpec> {
    let (nesting, rest) = text.split_once(' ')?;
    let (at_first, rest) = rest.split_once(' ')?;
    let (bound, leaves) = rest.split_once(' ')?;
    Some(PredSpec {
        nesting: flag_of(nesting, "nested", "plain")?,
        unknown: flag_of(at_first, "unknown", "false")?,
        bound: bound.parse::<u32>().ok()?,
        leaves: leaves.parse::<u32>().ok()?,
    })
}

fn flag_of(word: &str, yes: &str, no: &str) -> Option<bool> {
    if word == yes {
        return Some(true);
    }
    if word == no { Some(false) } else { None }
}

fn run_spec(
    alloc: Global,
    tester: &mut Tester,
    row: &Row<'_>,
    spec: PredSpec,
) -> Result<(), AllocError> {
    if spec.bound < 1 || spec.bound > 3000 {
        return tester.differs("a bound that no table has", "");
    }
    let text = row.text(alloc, "events")?;
    let Some(events) = tester.written_out(text.as_str())? else {
        return Ok(());
    };
    match played(alloc, spec, events.as_str())? {
        Some(table) => run_table(alloc, tester, row, &table),
        None => tester.differs("a key of other leaves", ""),
    }
}

fn run_table(
    alloc: Global,
    tester: &mut Tester,
    row: &Row<'_>,
    table: &PredTable,
) -> Result<(), AllocError> {
    if row.has("has") {
        compare_entries(alloc, tester, row, table)?;
    }
    if row.has("size") {
        tester.case();
        let wanted = unsigned(row.word("size")).unwrap_or(u64::MAX);
        tester.same_number("size", wanted, table.len() as u64)?;
    }
    run_truths(alloc, tester, row, table)?;
    run_rebuilt(alloc, tester, row, table)
}

/// Compares the entries of a table, and its drops.
fn compare_entries(
    alloc: Global,
    tester: &mut Tester,
    row: &Row<'_>,
    table: &PredTable,
) -> Result<(), AllocError> {
    let text = row.text(alloc, "has")?;
    let Some(wanted) = tester.written_out(text.as_str())? else {
        return Ok(());
    };
    tester.case();
    let found = table_text(alloc, table)?;
    tester.same_text("entries", wanted.as_str().trim(), found.as_str())
}

/// Asks for the truth of each key and of each question.
fn run_truths(
    alloc: Global,
    tester: &mut Tester,
    row: &Row<'_>,
    table: &PredTable,
) -> Result<(), AllocError> {
    ask_keys(alloc, tester, row.word("true"), table, Truth::True)?;
    ask_keys(alloc, tester, row.word("unknown"), table, Truth::Unknown)?;
    ask_keys(alloc, tester, row.word("false"), table, Truth::False)?;
    ask_binds(alloc, tester, row.word("any_true"), table, Truth::True)?;
    ask_binds(
        alloc,
        tester,
        row.word("any_unknown"),
        table,
        Truth::Unknown,
    )?;
    ask_binds(alloc, tester, row.word("any_false"), table, Truth::False)
}

fn ask_keys(
    alloc: Global,
    tester: &mut Tester,
    words: &str,
    table: &PredTable,
    truth: Truth,
) -> Result<(), AllocError> {
    for word in words.split_whitespace() {
        tester.case();
        let key = key_of(alloc, word)?;
        tester.holds(word, table.truth(&key) == truth)?;
    }
    Ok(())
}

fn ask_binds(
    alloc: Global,
    tester: &mut Tester,
    words: &str,
    table: &PredTable,
    truth: Truth,
) -> Result<(), AllocError> {
    for word in words.split_whitespace() {
        tester.case();
        let binds = binds_of(alloc, word)?;
        tester.holds(word, table.any(binds.as_slice()) == truth)?;
    }
    Ok(())
}
