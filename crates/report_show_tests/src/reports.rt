//! The rows: bytes, and what is shown of them.
use report_json::{json, json_text};
use report_show::{ShowError, read_tree};
use report_writer::ReportTree;
use std::alloc::{AllocError, Global};
use test_tools::{Row, Table, Tester, unsigned};

/// The table of reports.
pub struct Reports;

/// A row's bytes are cut after each, where they are no more than these.
const MOST_CUT: usize = 1_000;

/// What is shown of bytes that are no report, and of too many.
const NOT_REPORT: &str = "not a report";

const TOO_LONG: &str = "too long";

impl Table for Reports {
    fn marks(&self) -> &'static str {
        "bytes json refused size"
    }

    fn run(&self, alloc: Global, tester: &mut Tester, row: &Row<'_>) -> Result<(), AllocError> {
        let text = row.text(alloc, "bytes")?;
        let Some(bytes) = tester.bytes_of("reports", text.as_str())? else {
            return Ok(());
        };
        let bytes = bytes.as_slice();
        if row.has("size") {
            let wanted = unsigned(row.word("size")).unwrap_or(0);
            let found = shown(alloc, bytes)?;
            tester.case();
            return tester.same_number("size", wanted, found.len() as u64);
        }
        if let Some(wanted) = row.line("refused") {
            return compare(alloc, tester, "what is refused", bytes, wanted);
        }
        let wanted = without_blanks(alloc, row.text(alloc, "json")?.as_str())?;
        compare(alloc, tester, "json", bytes, wanted.as_str())?;
        compare_value(alloc, tester, bytes)?;
        compare_near(alloc, tester, bytes)
    }
}

/// What is shown of bytes: the text of their report, or why there is none.
fn shown(alloc: Global, bytes: &[u8]) -> Result<Vec<u8>, AllocError> {
    if bytes.len() > u32::MAX as usize {
        return TOO_LONG.as_bytes().to_vec(alloc);
    }
    match read_tree(alloc, bytes) {
        Ok(tree) => json_text(alloc, &tree),
        Err(ShowError::TooLong(_)) => TOO_LONG.as_bytes().to_vec(alloc),
        Err(ShowError::NotReport) => NOT_REPORT.as_bytes().to_vec(alloc),
        Err(ShowError::Memory) => Err(AllocError),
    }
}

/// Compares what is shown of bytes.
fn compare(
    alloc: Global,
    tester: &mut Tester,
    what: &str,
    bytes: &[u8],
    wanted: &str,
) -> Result<(), AllocError> {
    tester.case();
    let found = shown(alloc, bytes)?;
    match std::str::from_utf8(&found) {
        Ok(found) => tester.same_text(what, wanted, found),
        Err(_) => tester.differs(what, "no text"),
    }
}

/// The text of a report is that of its value.
fn compare_value(alloc: Global, tester: &mut Tester, bytes: &[u8]) -> Result<(), AllocError> {
    if bytes.len() > u32::MAX as usize {
        return Ok(());
    }
    match read_tree(alloc, bytes) {
        Ok(tree) => compare_texts(alloc, tester, &tree),
        Err(_) => tester.differs("value", "no report"),
    }
}

/// Compares the two texts of a tree.
fn compare_texts(alloc: Global, tester: &mut Tester, tree: &ReportTree) -> Result<(), AllocError> {
    tester.case();
    let text = json_text(alloc, tree)?;
    let value = json(alloc, tree)?.to_vec(alloc)?;
    tester.same_bytes("value", text.as_slice(), value.as_slice())
}

/// Each front of a report, and a report with a byte more, is none.
fn compare_near(alloc: Global, tester: &mut Tester, bytes: &[u8]) -> Result<(), AllocError> {
    if bytes.len() > MOST_CUT {
        return Ok(());
    }
    for len in 0..bytes.len() {
        let front = bytes.get(..len).unwrap_or(bytes);
        compare(alloc, tester, "a front", front, NOT_REPORT)?;
    }
    let mut more = bytes.to_vec(alloc)?;
    more.push(0)?;
    compare(alloc, tester, "a byte more", more.as_slice(), NOT_REPORT)
}

/// A text without its blanks, as a line that was broken has them.
fn without_blanks(alloc: Global, text: &str) -> Result<String, AllocError> {
    let mut whole = String::new(alloc);
    for word in text.split_whitespace() {
        whole.push_str(word)?;
    }
    Ok(whole)
}
