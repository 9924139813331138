//! The rows: a matcher, and atoms on which it holds or doesn't.
ghost use Rattle.config_types.specs.Askable.{IsAskable};

use super::client::{Client, Nodder};
use super::joined::run_joined;
use atom_record::{AtomFault, parse_atom};
use config_decode::{DecodeFault, decode};
use config_types::{Config, MatcherBody, SimpleMatcher, is_askable};
use matcher_eval::{FieldJudge, Judge};
use std::alloc::{AllocError, Global};
use test_tools::{Row, Table, Tester, unsigned};

/// More bytes than the matcher of any row has.
const MOST_BYTES: usize = 100_000;

/// The table of matchers.
pub struct Matchers;

impl Table for Matchers {
    fn marks(&self) -> &'static str {
        "simple yes no times judge unaskable join"
    }

    fn run(&self, alloc: Global, tester: &mut Tester, row: &Row<'_>) -> Result<(), AllocError> {
        if row.has("join") {
            return run_joined(alloc, tester, row);
        }
        let text = row.text(alloc, "simple")?;
        let whole = format!(in alloc; "matcher{{ simple{{ {text} }} }}")?;
        let Some(bytes) = tester.bytes_of("config", whole.as_str())? else {
            return Ok(());
        };
        run_bytes(alloc, tester, row, bytes.as_slice())
    }
}

/// Runs a row on the matcher of these bytes.
fn run_bytes(
    alloc: Global,
    tester: &mut Tester,
    row: &Row<'_>,
    bytes: &[u8],
) -> Result<(), AllocError> {
    if bytes.len() > MOST_BYTES {
        return tester.differs("a matcher that is too long", "");
    }
    match decode(alloc, bytes) {
        Ok(config) => run_config(alloc, tester, row, &config),
        Err(DecodeFault::Memory) => Err(AllocError),
        Err(_) => tester.differs("a matcher that isn't read", ""),
    }
}

fn run_config(
    alloc: Global,
    tester: &mut Tester,
    row: &Row<'_>,
    config: &Config,
) -> Result<(), AllocError> {
    let Some(matcher) = first_simple(config) else {
        return tester.differs("no simple matcher", "");
    };
    if row.has("unaskable") {
        tester.case();
        return tester.holds("may not be asked", !is_askable(matcher));
    }
    if !is_askable(matcher) {
        return tester.differs("may not be asked", "");
    }
    run_matcher(alloc, tester, row, matcher)
}

/// The first matcher, if it is simple.
fn first_simple(config: &Config) -> Option<&SimpleMatcher> {
    match &config.matchers.get(0)?.body {
        Some(MatcherBody::Simple(simple)) => Some(simple),
        _ => None,
    }
}

/// Asks a judge of the row's type on each of its atoms, and compares how often it was asked.
fn run_matcher(
    alloc: Global,
    tester: &mut Tester,
    row: &Row<'_>,
    matcher: &SimpleMatcher,
) -> Result<(), AllocError>
    requires { IsAskable matcher.now }
{
    if row.word("judge") == "nods" {
        let mut nodding = Client {
            judge: Nodder { asked: 0 },
            last: false,
        };
        let asked = ask_all(alloc, tester, row, matcher, &mut nodding)?;
        return tester.same_number("questions", asked, nodding.judge.asked);
    }
    let mut client = Client {
        judge: FieldJudge::new(),
        last: false,
    };
    let asked = ask_all(alloc, tester, row, matcher, &mut client)?;
    tester.same_number("questions", asked, client.judge.ticks())
}

/// Asks on each atom of a row, and counts the questions.
fn ask_all<J: Judge>(
    alloc: Global,
    tester: &mut Tester,
    row: &Row<'_>,
    matcher: &SimpleMatcher,
    client: &mut Client<J>,
) -> Result<u64, AllocError>
    requires { IsAskable matcher.now }
{
    let times = unsigned(row.line("times").unwrap_or("1")).unwrap_or(0);
    let mut asked = 0_u64;
    for line in row.block().lines() {
        if line == row.name {
            continue;
        }
        if let Some((truth, words)) = question_of(line) {
            for _ in 0..times {
                ask(alloc, tester, matcher, client, truth, words)?;
                asked = asked.saturating_add(1);
            }
        }
    }
    Ok(asked)
}

/// What a line asks: whether the matcher holds on an atom of these words.
fn question_of(line: &str) -> Option<(bool, &str)> {
    match line.split_once(' ')? {
        ("yes", words) => Some((true, words)),
        ("no", words) => Some((false, words)),
        _ => None,
    }
}

fn ask<J: Judge>(
    alloc: Global,
    tester: &mut Tester,
    matcher: &SimpleMatcher,
    client: &mut Client<J>,
    truth: bool,
    words: &str,
) -> Result<(), AllocError>
    requires { IsAskable matcher.now }
{
    tester.case();
    let text = format!(in alloc; "u32:{words}")?;
    let Some(payload) = tester.bytes(text.as_str())? else {
        return Ok(());
    };
    match parse_atom(alloc, payload.as_slice()) {
        Ok(atom) => {
            client.ask(matcher, &atom);
            tester.holds(words, client.last == truth)
        }
        Err(AtomFault::Memory) => Err(AllocError),
        Err(_) => tester.differs("no atom", words),
    }
}
