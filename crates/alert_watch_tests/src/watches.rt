//! The rows: a watch, what it is told, and what it tells.
ghost use Rattle.std.specs.Prelude.{IsTrue, ◌↔◌};
ghost use Rattle.config_types.specs.AlertSpecs.{IsAlertSpec};

use super::saved::built_of;
use super::shown::alarms_text;
use super::steps::{step_of, tell};
use alert_watch::AlertWatch;
use config_types::{AlertSpec, MAX_PARTS, MAX_REFRACTORY, MAX_THRESHOLD};
use flat_form::{FlatError, rebuild};
use std::alloc::{AllocError, Global};
use test_tools::{Row, Table, Tester, unsigned};

/// The table of watches.
pub struct Watches;

impl Table for Watches {
    fn marks(&self) -> &'static str {
        "made do items are"
    }

    fn run(&self, alloc: Global, tester: &mut Tester, row: &Row<'_>) -> Result<(), AllocError> {
        if row.has("items") {
            return run_items(alloc, tester, row);
        }
        let text = row.text(alloc, "do")?;
        let Some(steps) = tester.written_out(text.as_str())? else {
            return Ok(());
        };
        let Some(spec) = spec_of(row.word("made")) else {
            return tester.differs("no alert", row.word("made"));
        };
        if !is_sound(spec) {
            return tester.differs("no such alert", row.word("made"));
        }
        let watch = AlertWatch::new(alloc, spec)?;
        run_steps(alloc, tester, watch, steps.as_str())
    }
}

/// Compares what comes of building a watch of items.
fn run_items(alloc: Global, tester: &mut Tester, row: &Row<'_>) -> Result<(), AllocError> {
    let text = row.text(alloc, "items")?;
    let Some(words) = tester.written_out(text.as_str())? else {
        return Ok(());
    };
    tester.case();
    match built_of(alloc, words.as_str())? {
        Some(found) => tester.same_text("built", row.line("are").unwrap_or(""), found),
        None => tester.differs("a word that isn't known", words.as_str()),
    }
}

/// The alert with so many keys at most, so many parts, a threshold and a refractory time, as `2 10 0 5`.
fn spec_of(text: &str) -> Option<AlertSpec> {
    let (keys, rest) = text.split_once(' ')?;
    let (parts, numbers) = rest.split_once(' ')?;
    let (threshold, refractory) = numbers.split_once(' ')?;
    Some(AlertSpec {
        bound: keys.parse::<u32>().ok()?,
        parts: parts.parse::<u32>().ok()?,
        threshold: unsigned(threshold)?,
        refractory: unsigned(refractory)?,
    })
}

/// Whether its numbers are in their ranges.
fn is_sound(spec: AlertSpec) -> bool
    ensures { IsTrue result ↔ IsAlertSpec spec }
{
    1 <= spec.bound
        && spec.bound <= 3000
        && 1 <= spec.parts
        && spec.parts <= MAX_PARTS
        && spec.threshold <= MAX_THRESHOLD
        && spec.refractory <= MAX_REFRACTORY
}

/// Runs steps, which stand between semicolons.
fn run_steps(
    alloc: Global,
    tester: &mut Tester,
    made: AlertWatch,
    steps: &str,
) -> Result<(), AllocError> {
    let mut watch = made;
    for step in steps.split(';') {
        if step.trim() == "rebuilt" {
            match rebuild(alloc, &watch) {
                Ok(built) => watch = built,
                Err(FlatError::Memory) => return Err(AllocError),
                Err(FlatError::Bad) => return tester.differs("not rebuilt", ""),
            }
        } else {
            run_step(alloc, tester, &mut watch, step.trim())?;
        }
    }
    Ok(())
}

/// Runs a step: something that is told, or one that compares what a report tells, as `tells ALARMS`, or how many, as
/// `counts LISTED OTHERS`.
fn run_step(
    alloc: Global,
    tester: &mut Tester,
    watch: &mut AlertWatch,
    step: &str,
) -> Result<(), AllocError> {
    if step.is_empty() {
        return Ok(());
    }
    if let Some(wanted) = step.strip_prefix("tells ") {
        tester.case();
        let found = alarms_text(alloc, &watch.take())?;
        return tester.same_text("told", wanted, found.as_str());
    }
    if let Some(wanted) = step.strip_prefix("counts ") {
        tester.case();
        let told = watch.take();
        let (listed, others) = (told.listed.len(), told.not_kept);
        let found = format!(in alloc; "{listed} {others}")?;
        return tester.same_text("counted", wanted, found.as_str());
    }
    match step_of(step) {
        Some(known) => match tell(alloc, watch, known)? {
            true => Ok(()),
            false => tester.differs("a step that may not be told", step),
        },
        None => tester.differs("a step that isn't known", step),
    }
}
