//! The rows: trees and their bytes, atoms and the messages that are shown of them.
use super::builder::Builder;
use super::writable::bytes_of;
use atom_record::{AtomFault, parse_atom};
use report_writer::{ReportTree, atom_msg};
use std::alloc::{AllocError, Global};
use test_tools::{Refusal, Row, Table, Tester, unsigned};

/// The table of reports.
pub struct Reports;

impl Table for Reports {
    fn marks(&self) -> &'static str {
        "tree bytes size payload message"
    }

    fn run(&self, alloc: Global, tester: &mut Tester, row: &Row<'_>) -> Result<(), AllocError> {
        if row.has("payload") {
            return run_payload(alloc, tester, row);
        }
        let text = row.text(alloc, "tree")?;
        let Some(words) = tester.written_out(text.as_str())? else {
            return Ok(());
        };
        match tree_of(alloc, tester, words.as_str())? {
            Some(tree) => run_tree(alloc, tester, row, &tree),
            None => Ok(()),
        }
    }
}

/// The tree of a text, or nothing where a word isn't known, which is told.
fn tree_of(
    alloc: Global,
    tester: &mut Tester,
    text: &str,
) -> Result<Option<ReportTree>, AllocError> {
    let mut builder = Builder::new(alloc);
    for word in text.split_whitespace() {
        match builder.push(word) {
            Ok(()) => {}
            Err(Refusal::Memory) => return Err(AllocError),
            Err(Refusal::Word) => {
                tester.differs("a word that isn't known", word)?;
                return Ok(None);
            }
        }
    }
    Ok(Some(builder.finish()?))
}

/// Writes a tree, and compares its bytes, or how many there are.
fn run_tree(
    alloc: Global,
    tester: &mut Tester,
    row: &Row<'_>,
    tree: &ReportTree,
) -> Result<(), AllocError> {
    tester.case();
    let Some(found) = bytes_of(alloc, tree)? else {
        return tester.differs("a tree that may not be written", "");
    };
    if row.has("size") {
        let wanted = unsigned(row.word("size")).unwrap_or(0);
        return tester.same_number("size", wanted, found.len() as u64);
    }
    let text = row.text(alloc, "bytes")?;
    match tester.bytes_of("reports", text.as_str())? {
        Some(wanted) => tester.same_bytes("bytes", wanted.as_slice(), found.as_slice()),
        None => Ok(()),
    }
}

/// Compares the message that is shown of a payload's atom, as it is printed.
fn run_payload(alloc: Global, tester: &mut Tester, row: &Row<'_>) -> Result<(), AllocError> {
    let text = row.text(alloc, "payload")?;
    let Some(payload) = tester.bytes(text.as_str())? else {
        return Ok(());
    };
    tester.case();
    match parse_atom(alloc, payload.as_slice()) {
        Ok(atom) => {
            let message = atom_msg(alloc, &atom)?;
            let found = format!(in alloc; "{message:?}")?;
            let wanted = row.text(alloc, "message")?;
            tester.same_text("message", wanted.as_str().trim(), found.as_str())
        }
        Err(AtomFault::Memory) => Err(AllocError),
        Err(_) => tester.differs("no atom", ""),
    }
}
