//! What a configuration is linked to, or why it is refused.
use super::additions::{add_alerts, with_activations};
use super::texts::{fault_text, list_text};
use config_decode::decode;
use config_links::{LinkError, Linked, link};
use config_types::Config;
use std::alloc::{AllocError, Global};
use test_tools::{Row, Table, Tester, signed};

/// The most bytes that a row hands in: more than a configuration may have.
const MAX_INPUT: usize = 1_000_000;

/// A client whose minutes are five, which a row has that doesn't name one.
const CLIENT: &str = "10";

/// The lists of a linked configuration.
const LISTS: &[&str] = &["matchers", "predicates", "states", "metrics", "alerts"];

/// The table of configurations.
pub struct Links;

impl Table for Links {
    fn marks(&self) -> &'static str {
        "config active alert client fault linked matchers predicates states metrics alerts"
    }

    fn run(&self, alloc: Global, tester: &mut Tester, row: &Row<'_>) -> Result<(), AllocError> {
        let text = row.text(alloc, "config")?;
        let Some(bytes) = tester.bytes_of("config", text.as_str())? else {
            return Ok(());
        };
        run_bytes(alloc, tester, row, bytes.as_slice())
    }
}

/// The client of a row.
fn client_of(row: &Row<'_>) -> Option<i32> {
    i32::try_from(signed(row.line("client").unwrap_or(CLIENT))?).ok()
}

/// Links the configuration of these bytes with what the row adds to it, and compares what is answered.
fn run_bytes(
    alloc: Global,
    tester: &mut Tester,
    row: &Row<'_>,
    bytes: &[u8],
) -> Result<(), AllocError> {
    tester.case();
    let Some(uid) = client_of(row) else {
        return tester.differs("no client", row.word("client"));
    };
    let Some(tree) = tree_of(alloc, tester, row, bytes)? else {
        return tester.differs("the configuration isn't read", "");
    };
    match link(alloc, tree, uid) {
        Ok(linked) => compare_linked(alloc, tester, row, &linked),
        Err(fault) => compare_fault(alloc, tester, row, &fault),
    }
}

/// The tree of a row, if its bytes are read.
fn tree_of(
    alloc: Global,
    tester: &mut Tester,
    row: &Row<'_>,
    bytes: &[u8],
) -> Result<Option<Config>, AllocError> {
    if bytes.len() > MAX_INPUT {
        return Ok(None);
    }
    let Ok(tree) = decode(alloc, bytes) else {
        return Ok(None);
    };
    let active = row.text(alloc, "active")?;
    let mut tree = with_activations(alloc, tester, tree, active.as_str())?;
    let alerts = row.text(alloc, "alert")?;
    add_alerts(alloc, tester, &mut tree.alerts, alerts.as_str())?;
    Ok(Some(tree))
}

fn compare_fault(
    alloc: Global,
    tester: &mut Tester,
    row: &Row<'_>,
    fault: &LinkError,
) -> Result<(), AllocError> {
    let found = fault_text(alloc, fault)?;
    tester.same_text("fault", row.word("fault"), found.as_str())
}

/// Compares the lists of a linked configuration, where a row doesn't only say that it is linked.
fn compare_linked(
    alloc: Global,
    tester: &mut Tester,
    row: &Row<'_>,
    linked: &Linked,
) -> Result<(), AllocError> {
    tester.same_text("fault", row.word("fault"), "")?;
    if row.has("linked") {
        return Ok(());
    }
    for list in LISTS {
        let found = list_text(alloc, linked, list)?;
        compare_text(alloc, tester, row, list, found.as_str())?;
    }
    Ok(())
}

/// Compares a text with that behind a mark, in which names are replaced and loops written out.
fn compare_text(
    alloc: Global,
    tester: &mut Tester,
    row: &Row<'_>,
    mark: &str,
    found: &str,
) -> Result<(), AllocError> {
    let text = row.text(alloc, mark)?;
    match tester.written_out(text.as_str())? {
        Some(wanted) => tester.same_text(mark, wanted.as_str().trim(), found),
        None => Ok(()),
    }
}
