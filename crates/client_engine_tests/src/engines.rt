//! The rows: a configuration, what was told before its install, what comes to it, and what is built of its items.
use super::bends::{Bend, How, answer_bent, bend_each};
use super::fed::Fed;
use super::feeds::{run_steps, tell};
use super::random::random_steps;
use super::saved::answer;
use flat_form::Items;
use std::alloc::{AllocError, Global};
use test_tools::{Row, Table, Tester, unsigned};

/// How many steps of a row are saved after.
const MOST_SAVES: u64 = 400;

/// The table of instances.
pub struct Engines;

/// What is played of a row, and how often the instance is saved and built again meanwhile.
#[derive(Clone, Copy)]
struct Play<'a> {
    row: &'a Row<'a>,
    config: &'a [u8],
    steps: &'a str,
    saves: u64,
}

impl Table for Engines {
    fn marks(&self) -> &'static str {
        "config base before do random put for is bent"
    }

    fn run(&self, alloc: Global, tester: &mut Tester, row: &Row<'_>) -> Result<(), AllocError> {
        let config = row.text(alloc, "config")?;
        let Some(bytes) = tester.bytes_of("config", config.as_str())? else {
            return Ok(());
        };
        let Some(steps) = steps_of(alloc, tester, row)? else {
            return Ok(());
        };
        let play = Play {
            row,
            config: bytes.as_slice(),
            steps: steps.as_str(),
            saves: 0,
        };
        play_twice(alloc, tester, play)
    }
}

/// The steps of a row, written out, or nothing where they can't be, which is told.
fn steps_of(
    alloc: Global,
    tester: &mut Tester,
    row: &Row<'_>,
) -> Result<Option<String>, AllocError> {
    if row.has("random") {
        return Ok(Some(random_steps(alloc, row.word("random"))?));
    }
    let text = row.text(alloc, "do")?;
    tester.written_out(text.as_str())
}

/// Plays a row as it stands, and again with an instance that is saved and built between the steps: all reports are the
/// same.
fn play_twice(alloc: Global, tester: &mut Tester, play: Play<'_>) -> Result<(), AllocError> {
    let plain = reports_of(alloc, tester, play)?;
    let saved = reports_of(
        alloc,
        tester,
        Play {
            saves: MOST_SAVES,
            ..play
        },
    )?;
    tester.same_bytes("all reports", plain.as_slice(), saved.as_slice())
}

/// Plays a row. Answers the bytes of its reports.
fn reports_of(alloc: Global, tester: &mut Tester, play: Play<'_>) -> Result<Vec<u8>, AllocError> {
    let mut fed = Fed::new(alloc, play.saves);
    feed(alloc, tester, &mut fed, play)
}

/// Tells what came before, installs the configuration, and runs the steps.
fn feed(
    alloc: Global,
    tester: &mut Tester,
    fed: &mut Fed,
    play: Play<'_>,
) -> Result<Vec<u8>, AllocError> {
    tell_before(alloc, tester, fed, play.row.word("before"))?;
    let base = unsigned(play.row.line("base").unwrap_or("0"));
    let is_installed = fed.install(play.config, base)?;
    tester.holds("install", is_installed)?;
    run_steps(alloc, tester, fed, play.steps)?;
    if play.saves > 0 {
        compare_saved(alloc, tester, fed, play)?;
    }
    Ok(fed.take_reports())
}

/// Tells the book of states an atom, if there is one.
fn tell_before(
    alloc: Global,
    tester: &mut Tester,
    fed: &mut Fed,
    words: &str,
) -> Result<(), AllocError> {
    if words.is_empty() {
        return Ok(());
    }
    tell(alloc, tester, fed, words)
}

/// Compares what is built of items that aren't those of the instance, or for another configuration.
fn compare_saved(
    alloc: Global,
    tester: &mut Tester,
    fed: &Fed,
    play: Play<'_>,
) -> Result<(), AllocError> {
    let Some(items) = fed.items()? else {
        return tester.differs("no instance", "");
    };
    compare_puts(alloc, tester, play, &items)?;
    compare_other(alloc, tester, play.row, &items)?;
    if !play.row.has("bent") {
        return Ok(());
    }
    bend_each(alloc, tester, play.config, &items)
}

/// Compares what is built for another configuration, if a row has one.
fn compare_other(
    alloc: Global,
    tester: &mut Tester,
    row: &Row<'_>,
    items: &Items,
) -> Result<(), AllocError> {
    if !row.has("for") {
        return Ok(());
    }
    let config = row.text(alloc, "for")?;
    let Some(bytes) = tester.bytes_of("config", config.as_str())? else {
        return Ok(());
    };
    let found = answer(alloc, bytes.as_slice(), items)?;
    tester.case();
    tester.same_text("for another configuration", row.word("is"), found)
}

/// Compares what is built where another number stands at a place, as `4 8 bad`, with a `;` between two.
fn compare_puts(
    alloc: Global,
    tester: &mut Tester,
    play: Play<'_>,
    items: &Items,
) -> Result<(), AllocError> {
    for words in play.row.word("put").split(';') {
        if !words.trim().is_empty() {
            compare_put(alloc, tester, play, items, words.trim())?;
        }
    }
    Ok(())
}

fn compare_put(
    alloc: Global,
    tester: &mut Tester,
    play: Play<'_>,
    items: &Items,
    words: &str,
) -> Result<(), AllocError> {
    let (place, rest) = words.split_once(' ').unwrap_or((words, ""));
    let (number, wanted) = rest.split_once(' ').unwrap_or((rest, ""));
    let bend = Bend {
        place: unsigned(place).unwrap_or(u64::MAX) as usize,
        how: How::Number(unsigned(number).unwrap_or(0)),
    };
    let found = answer_bent(alloc, play.config, items, bend)?;
    tester.case();
    tester.same_text(words, wanted, found)
}
