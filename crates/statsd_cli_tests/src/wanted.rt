//! What a row is run on, and what it should leave.
use super::forms::{LONG, form_of, joined};
use super::streams::Streams;
use std::alloc::{AllocError, Global};
use test_tools::{Row, Tester, unsigned};

/// What a run should leave: of the replies and of the note those bytes that their streams have room for.
#[derive(Drop)]
pub struct Wanted {
    pub status: u64,
    pub replies: Vec<u8>,
    pub note: String,
}

/// What a row should leave, or nothing where a word isn't known.
pub fn wanted_of(
    alloc: Global,
    tester: &mut Tester,
    row: &Row<'_>,
    input: &[u8],
) -> Result<Option<Wanted>, AllocError> {
    let Some(replies) = replies_of(alloc, tester, row, input)? else {
        return Ok(None);
    };
    let note = line_of(alloc, row, "note")?;
    let Some(status) = status_of(row) else {
        tester.differs("a status that is no number", row.word("status"))?;
        return Ok(None);
    };
    Ok(Some(Wanted {
        status,
        replies,
        note,
    }))
}

fn status_of(row: &Row<'_>) -> Option<u64> {
    match row.line("status") {
        Some(word) => unsigned(word),
        None => Some(0),
    }
}

/// The words of the command line, where a row says them, and else what its marks ask for.
pub fn words_in<'a>(row: &Row<'a>) -> &'a str {
    if row.has("saved") {
        return row.line("words").unwrap_or("resume");
    }
    if row.has("form") {
        return row.line("words").unwrap_or("save");
    }
    row.line("words").unwrap_or("replay")
}

/// The bytes of the replies, or of the line that `check`, `show` or `load` writes, or a saved form.
fn replies_of(
    alloc: Global,
    tester: &mut Tester,
    row: &Row<'_>,
    input: &[u8],
) -> Result<Option<Vec<u8>>, AllocError> {
    if row.has("form") {
        return form_within(alloc, tester, row, input);
    }
    if row.has("json") {
        return Ok(Some(json_of(alloc, row)?.into_bytes()));
    }
    if row.has("line") {
        return Ok(Some(line_of(alloc, row, "line")?.into_bytes()));
    }
    let text = row.text(alloc, "<")?;
    tester.bytes(text.as_str())
}

/// The saved form of a session, which has so many bytes at most as its row says.
fn form_within(
    alloc: Global,
    tester: &mut Tester,
    row: &Row<'_>,
    input: &[u8],
) -> Result<Option<Vec<u8>>, AllocError> {
    let form = form_of(alloc, tester, input, &Streams::AMPLE)?;
    let size = form.len().saturating_sub(LONG) as u64;
    let most = unsigned(row.word("form"));
    tester.holds(
        "a form within its length",
        most.is_some_and(|most| size <= most),
    )?;
    Ok(Some(form))
}

/// A line and its end, or nothing where a row doesn't have it.
pub fn line_of(alloc: Global, row: &Row<'_>, mark: &str) -> Result<String, AllocError> {
    let mut line = String::new(alloc);
    if let Some(text) = row.line(mark) {
        line.push_str(text)?;
        line.push_str("\n")?;
    }
    Ok(line)
}

/// A line of JSON and its end. Where a row breaks it, blanks stand in it, of which it has none.
fn json_of(alloc: Global, row: &Row<'_>) -> Result<String, AllocError> {
    let text = row.text(alloc, "json")?;
    let mut line = String::new(alloc);
    for word in text.as_str().split_whitespace() {
        line.push_str(word)?;
    }
    line.push_str("\n")?;
    Ok(line)
}

/// The bytes that a row is run on: a configuration, a report, a session, or what comes after a saved form.
pub fn input_of(
    alloc: Global,
    tester: &mut Tester,
    row: &Row<'_>,
) -> Result<Option<Vec<u8>>, AllocError> {
    if row.has("config") {
        let text = row.text(alloc, "config")?;
        return tester.bytes_of("config", text.as_str());
    }
    if row.has("report") {
        let text = row.text(alloc, "report")?;
        return tester.bytes_of("reports", text.as_str());
    }
    let text = row.text(alloc, ">")?;
    let Some(bytes) = tester.bytes(text.as_str())? else {
        return Ok(None);
    };
    if row.has("saved") {
        return after_form(alloc, tester, row, bytes.as_slice());
    }
    Ok(Some(bytes))
}

/// These bytes after the saved form of the session that a row says.
fn after_form(
    alloc: Global,
    tester: &mut Tester,
    row: &Row<'_>,
    bytes: &[u8],
) -> Result<Option<Vec<u8>>, AllocError> {
    let text = row.text(alloc, "saved")?;
    let Some(session) = tester.bytes(text.as_str())? else {
        return Ok(None);
    };
    let form = form_of(alloc, tester, session.as_slice(), &Streams::AMPLE)?;
    Ok(Some(joined(alloc, form.as_slice(), bytes)?))
}
