//! What is read of a configuration, or why it is refused.
use super::texts::{fault_text, list_text};
use config_decode::{DecodeFault, decode};
use config_types::{Config, MatcherBody, SimpleMatcher};
use std::alloc::{AllocError, Global};
use test_tools::{Row, Tester, unsigned};

/// The most bytes that a row hands in: more than a configuration may have.
const MAX_INPUT: usize = 1_000_000;

/// The lists of a tree.
const LISTS: &[&str] = &[
    "matchers",
    "predicates",
    "states",
    "events",
    "counts",
    "values",
    "gauges",
    "durations",
    "no_report",
    "alerts",
];

/// What is read, or why the bytes are refused.
type Answer = Result<Config, DecodeFault>;

/// Reads the configuration of a row, and compares what is answered.
pub fn run_config(alloc: Global, tester: &mut Tester, row: &Row<'_>) -> Result<(), AllocError> {
    let text = row.text(alloc, "config")?;
    let Some(bytes) = tester.bytes_of("config", text.as_str())? else {
        return Ok(());
    };
    run_bytes(alloc, tester, row, bytes.as_slice())
}

/// No other function owns an answer.
fn run_bytes(
    alloc: Global,
    tester: &mut Tester,
    row: &Row<'_>,
    bytes: &[u8],
) -> Result<(), AllocError> {
    let answer = answer(alloc, bytes);
    compare(alloc, tester, row, &answer)
}

/// The answer to bytes, of which there are few enough for a call.
fn answer(alloc: Global, bytes: &[u8]) -> Answer {
    if bytes.len() > MAX_INPUT {
        return Err(DecodeFault::Memory);
    }
    decode(alloc, bytes)
}

/// Compares an answer with what a row says of it.
fn compare(
    alloc: Global,
    tester: &mut Tester,
    row: &Row<'_>,
    answer: &Answer,
) -> Result<(), AllocError> {
    tester.case();
    match answer {
        Ok(tree) => compare_tree(alloc, tester, row, tree),
        Err(fault) => compare_fault(alloc, tester, row, fault),
    }
}

fn compare_fault(
    alloc: Global,
    tester: &mut Tester,
    row: &Row<'_>,
    fault: &DecodeFault,
) -> Result<(), AllocError> {
    let found = fault_text(alloc, fault)?;
    compare_text(alloc, tester, row, "fault", found.as_str())
}

/// Compares a text with that behind a mark, in which names are replaced and loops written out.
fn compare_text(
    alloc: Global,
    tester: &mut Tester,
    row: &Row<'_>,
    mark: &str,
    found: &str,
) -> Result<(), AllocError> {
    let text = row.text(alloc, mark)?;
    match tester.written_out(text.as_str())? {
        Some(wanted) => tester.same_text(mark, wanted.as_str().trim(), found),
        None => Ok(()),
    }
}

/// Compares a tree, and the copy of its first matcher.
fn compare_tree(
    alloc: Global,
    tester: &mut Tester,
    row: &Row<'_>,
    tree: &Config,
) -> Result<(), AllocError> {
    tester.same_text("fault", row.word("fault"), "")?;
    if row.has("items") {
        compare_items(tester, row, tree)?;
    } else {
        compare_lists(alloc, tester, row, tree)?;
    }
    match first_simple(tree) {
        Some(simple) => compare_copy(alloc, tester, simple),
        None => Ok(()),
    }
}

fn compare_lists(
    alloc: Global,
    tester: &mut Tester,
    row: &Row<'_>,
    tree: &Config,
) -> Result<(), AllocError> {
    for list in LISTS {
        let found = list_text(alloc, tree, list)?;
        compare_text(alloc, tester, row, list, found.as_str())?;
    }
    Ok(())
}

fn compare_items(tester: &mut Tester, row: &Row<'_>, tree: &Config) -> Result<(), AllocError> {
    match unsigned(row.word("items")) {
        Some(wanted) => tester.same_number("items", wanted, items_of(tree) as u64),
        None => tester.differs("no number", "items"),
    }
}

/// How many items the lists of a tree have, and the key of its first count.
fn items_of(tree: &Config) -> usize {
    let matchers = tree.matchers.len().saturating_add(tree.predicates.len());
    let states = tree.states.len().saturating_add(tree.no_report.len());
    let events = tree.events.len().saturating_add(tree.counts.len());
    let values = tree.values.len().saturating_add(tree.gauges.len());
    let runs = tree.durations.len().saturating_add(children_of(tree));
    let named = matchers.saturating_add(states);
    let counted = events.saturating_add(values);
    named.saturating_add(counted).saturating_add(runs)
}

/// How many children the key of the first count has.
fn children_of(tree: &Config) -> usize {
    match tree.counts.get(0) {
        Some(count) => match &count.sliced.dims {
            Some(dims) => dims.children.len(),
            None => 0,
        },
        None => 0,
    }
}

/// The first matcher of what is read, if it is simple.
fn first_simple(tree: &Config) -> Option<&SimpleMatcher> {
    match &tree.matchers.get(0)?.body {
        Some(MatcherBody::Simple(simple)) => Some(simple),
        _ => None,
    }
}

/// Compares a matcher with its copy.
fn compare_copy(
    alloc: Global,
    tester: &mut Tester,
    simple: &SimpleMatcher,
) -> Result<(), AllocError> {
    tester.case();
    let text = text_of(alloc, simple)?;
    let copied = copy_text(alloc, simple)?;
    tester.same_text("copy", text.as_str(), copied.as_str())
}

/// The text of a matcher.
fn text_of(alloc: Global, matcher: &SimpleMatcher) -> Result<String, AllocError> {
    format!(in alloc; "{matcher:?}")
}

/// The text of a matcher's copy.
fn copy_text(alloc: Global, matcher: &SimpleMatcher) -> Result<String, AllocError> {
    let copied = matcher.clone_matcher(alloc)?;
    text_of(alloc, &copied)
}
