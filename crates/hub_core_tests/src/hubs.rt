//! The rows: a hub under a judge, and what it is given and answers, a line after the other.
use super::bends::{compare_bent, compare_ids};
use super::judges::{Counting, Nodder, Tallier};
use super::mixed::compare_mixed;
use super::saving::{compare_len, compare_saved, save};
use super::tried::Tried;
use matcher_eval::FieldJudge;
use std::alloc::{AllocError, Global};
use test_tools::{Row, Table, Tester, unsigned};

/// The table of hubs.
pub struct Hubs;

impl Table for Hubs {
    fn marks(&self) -> &'static str {
        "judge > < asked again log do mixed saved save settle bent ids within above"
    }

    fn run(&self, alloc: Global, tester: &mut Tester, row: &Row<'_>) -> Result<(), AllocError> {
        match row.word("judge") {
            "fields" => run_lines(alloc, tester, row, FieldJudge::new()),
            "all" => run_lines(alloc, tester, row, Nodder { asked: 0 }),
            "entries" => run_lines(alloc, tester, row, Tallier { asked: 0 }),
            word => tester.differs("a judge that isn't known", word),
        }
    }
}

/// Runs the lines of a row, one after the other.
fn run_lines<J: Counting>(
    alloc: Global,
    tester: &mut Tester,
    row: &Row<'_>,
    judge: J,
) -> Result<(), AllocError> {
    let mut tried = Tried::new(alloc, judge)?;
    run_block(alloc, tester, &mut tried, row)
}

fn run_block<J: Counting>(
    alloc: Global,
    tester: &mut Tester,
    tried: &mut Tried<J>,
    row: &Row<'_>,
) -> Result<(), AllocError> {
    for line in row.block().lines() {
        if line != row.name && !line.starts_with('#') {
            run_line(alloc, tester, tried, row, line)?;
        }
    }
    Ok(())
}

/// Runs a line: frames, the replies to them, how often the judge was asked so far, frames that are taken again and
/// again, a session of many clients, or a hub that is saved.
fn run_line<J: Counting>(
    alloc: Global,
    tester: &mut Tester,
    tried: &mut Tried<J>,
    row: &Row<'_>,
    line: &str,
) -> Result<(), AllocError> {
    let (mark, rest) = line.split_once(' ').unwrap_or((line, ""));
    match mark {
        "judge" | "log" | "do" => Ok(()),
        ">" => take_frames(alloc, tester, tried, rest),
        "<" => compare_replies(tester, tried, rest),
        "asked" => compare_asked(tester, tried, rest),
        "again" => take_again(alloc, tester, tried, rest),
        "mixed" => compare_mixed(alloc, tester, row, rest),
        "saved" => compare_saved(alloc, tester, row, rest),
        "save" => save(alloc, tester, tried),
        "settle" => tried.settle(),
        "bent" => compare_bent(alloc, tester, tried),
        "ids" => compare_ids(alloc, tester, tried, rest),
        "within" => compare_len(alloc, tester, tried, true, rest),
        "above" => compare_len(alloc, tester, tried, false, rest),
        _ => tester.differs("a line that isn't known", line),
    }
}

/// Gives the hub the frames of a text.
fn take_frames<J: Counting>(
    alloc: Global,
    tester: &mut Tester,
    tried: &mut Tried<J>,
    text: &str,
) -> Result<(), AllocError> {
    let Some(bytes) = tester.bytes(text)? else {
        return Ok(());
    };
    let is_whole = tried.take(alloc, bytes)?;
    tester.holds("a session that is read to its end", is_whole)
}

/// Gives the hub the frames of a text so many times, and tells where it answers otherwise than at first.
fn take_again<J: Counting>(
    alloc: Global,
    tester: &mut Tester,
    tried: &mut Tried<J>,
    text: &str,
) -> Result<(), AllocError> {
    let (times, frames) = text.split_once(' ').unwrap_or((text, ""));
    let Some(times) = unsigned(times) else {
        return tester.differs("no number", times);
    };
    let Some(bytes) = tester.bytes(frames)? else {
        return Ok(());
    };
    tester.case();
    repeat(alloc, tester, tried, &bytes, times)
}

fn repeat<J: Counting>(
    alloc: Global,
    tester: &mut Tester,
    tried: &mut Tried<J>,
    bytes: &Vec<u8>,
    times: u64,
) -> Result<(), AllocError> {
    tried.take_anew(alloc, bytes)?;
    let wanted = own(alloc, tried.new_replies())?;
    for _ in 1..times {
        tried.take_anew(alloc, bytes)?;
        tester.same_bytes("replies", wanted.as_slice(), tried.new_replies())?;
    }
    Ok(())
}

/// These bytes, owned.
fn own(alloc: Global, bytes: &[u8]) -> Result<Vec<u8>, AllocError> {
    let mut owned = Vec::new(alloc);
    owned.extend_from_slice(bytes)?;
    Ok(owned)
}

/// Compares the replies since they were compared last.
fn compare_replies<J: Counting>(
    tester: &mut Tester,
    tried: &mut Tried<J>,
    text: &str,
) -> Result<(), AllocError> {
    let Some(wanted) = tester.bytes(text)? else {
        return Ok(());
    };
    tester.case();
    tester.same_bytes("replies", wanted.as_slice(), tried.new_replies())
}

/// Compares how often the judge was asked so far.
fn compare_asked<J: Counting>(
    tester: &mut Tester,
    tried: &Tried<J>,
    text: &str,
) -> Result<(), AllocError> {
    tester.case();
    match unsigned(text) {
        Some(wanted) => tester.same_number("questions", wanted, tried.asked()),
        None => tester.differs("no number", text),
    }
}
