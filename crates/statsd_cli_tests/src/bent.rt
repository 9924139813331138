//! Saved forms that are changed, cut or longer.
use super::forms::{form_of, joined, resumed};
use super::outcomes::{Due, Outcome, compare_due, front};
use super::streams::Streams;
use std::alloc::{AllocError, Global};
use test_tools::Tester;

const BAD_SESSION: u64 = 3;

const SAVE_REFUSED: u64 = 8;

/// What a byte is changed by.
const CHANGES: &[u8] = &[1, 2, 128];

/// Changes each byte of the saved form of a session, cuts the form at each, and puts a byte after it.
pub fn run_bent(alloc: Global, tester: &mut Tester, input: &[u8]) -> Result<(), AllocError> {
    let form = form_of(alloc, tester, input, &Streams::AMPLE)?;
    run_bent_form(alloc, tester, form.as_slice())
}

fn run_bent_form(alloc: Global, tester: &mut Tester, form: &[u8]) -> Result<(), AllocError> {
    for place in 0..form.len() {
        run_refused(
            alloc,
            tester,
            front(form, place),
            refused(SAVE_REFUSED, b"statsd: save refused: cut\n"),
        )?;
        for change in CHANGES {
            run_changed(alloc, tester, form, place, *change)?;
        }
    }
    run_longer(alloc, tester, form)
}

/// A form and one byte more, which begins a frame.
fn run_longer(alloc: Global, tester: &mut Tester, form: &[u8]) -> Result<(), AllocError> {
    let longer = joined(alloc, form, &[0])?;
    let due = refused(BAD_SESSION, b"statsd: bad session at 0: 1 cut\n");
    run_refused(alloc, tester, longer.as_slice(), due)
}

/// What is left of bytes with which no session goes on.
fn refused(status: u64, note: &[u8]) -> Due<'_> {
    Due {
        status,
        replies: &[],
        note,
    }
}

/// Bytes with which no session goes on.
fn run_refused(
    alloc: Global,
    tester: &mut Tester,
    bytes: &[u8],
    due: Due<'_>,
) -> Result<(), AllocError> {
    let outcome = resumed(alloc, bytes, &Streams::AMPLE)?;
    compare_due(tester, due, &outcome)
}

/// A form of which a byte is changed: it is the form of another hub, or that of none.
fn run_changed(
    alloc: Global,
    tester: &mut Tester,
    form: &[u8],
    place: usize,
    change: u8,
) -> Result<(), AllocError> {
    let outcome = resumed_changed(alloc, form, place, change)?;
    tester.case();
    tester.holds("another form or none", has_cause(&outcome))
}

/// What a form leaves of which a byte is changed.
fn resumed_changed(
    alloc: Global,
    form: &[u8],
    place: usize,
    change: u8,
) -> Result<Outcome, AllocError> {
    let mut bytes = form.to_vec(alloc)?;
    if let Some(byte) = bytes.get_mut(place) {
        *byte ^= change;
    }
    resumed(alloc, bytes.as_slice(), &Streams::AMPLE)
}

/// Whether nothing is answered, and nothing follows a form, or it is refused.
fn has_cause(outcome: &Outcome) -> bool {
    let is_known = match u64::from(outcome.status) {
        0 => outcome.note.is_empty(),
        SAVE_REFUSED => outcome.note.starts_with(b"statsd: save refused: "),
        _ => false,
    };
    is_known && outcome.replies.is_empty()
}
