//! The rows: a producer, its calls, and what it hands out.
use super::calls::{Call, act, call_of};
use super::pulled::{give_pulled, mode_of};
use super::shown::{atom_of, closed_text, key_of};
use atom_record::Atom;
use flat_form::{FlatError, rebuild};
use gauge_metric::{
    Closed, EventProducer, KeyedAtom, Producer, PulledGauge, PushedGauge, SampleSpec,
};
use sd_base::Seq;
use std::alloc::{AllocError, Global};
use test_tools::{Row, Table, Tester, unsigned};

/// The table of producers.
pub struct Producers;

/// A producer of a kind.
#[derive(Drop)]
enum Made {
    /// Of events.
    Events(EventProducer),
    /// Of samples that are pushed.
    Pushed(PushedGauge),
    /// Of samples of snapshots.
    Pulled(PulledGauge),
}

impl Table for Producers {
    fn marks(&self) -> &'static str {
        "made do"
    }

    fn run(&self, alloc: Global, tester: &mut Tester, row: &Row<'_>) -> Result<(), AllocError> {
        let text = row.text(alloc, "do")?;
        let Some(steps) = tester.written_out(text.as_str())? else {
            return Ok(());
        };
        match producer_of(alloc, row.word("made")) {
            Some(producer) => run_steps(alloc, tester, producer, steps.as_str()),
            None => tester.differs("no producer", row.word("made")),
        }
    }
}

/// The producer whose time begins at 0: `events`, or a gauge with buckets of a size, with so many keys and so many
/// samples of each, as `10 2 3`, or with its mode, where it is pulled, as `10 2 3 start`.
fn producer_of(alloc: Global, text: &str) -> Option<Made> {
    if text == "events" {
        return Some(Made::Events(EventProducer::new(alloc)));
    }
    let (first, rest) = text.split_once(' ')?;
    let (second, last) = rest.split_once(' ')?;
    let (third, mode) = last.split_once(' ').unwrap_or((last, ""));
    let size = unsigned(first)?;
    let bound = second.parse::<usize>().ok()?;
    let samples = third.parse::<usize>().ok()?;
    if size < 1 || size > 86_400_000_000_000 || bound < 1 || bound > 3000 {
        return None;
    }
    if samples < 1 || samples > 100 || bound * samples > 16_384 {
        return None;
    }
    if mode == "" {
        return Some(Made::Pushed(PushedGauge::new(alloc, 0, size, bound, samples)));
    }
    let spec = SampleSpec {
        samples,
        mode: mode_of(mode)?,
    };
    Some(Made::Pulled(PulledGauge::new(alloc, 0, size, bound, spec)))
}

/// Runs steps, which stand between semicolons.
fn run_steps(
    alloc: Global,
    tester: &mut Tester,
    made: Made,
    steps: &str,
) -> Result<(), AllocError> {
    let mut producer = made;
    for step in steps.split(';') {
        if step.trim() == "rebuilt" {
            match built_again(alloc, &producer) {
                Ok(built) => producer = built,
                Err(FlatError::Memory) => return Err(AllocError),
                Err(FlatError::Bad) => return tester.differs("not rebuilt", ""),
            }
        } else {
            run_step(alloc, tester, &mut producer, step.trim())?;
        }
    }
    Ok(())
}

fn built_again(alloc: Global, made: &Made) -> Result<Made, FlatError> {
    match made {
        Made::Events(events) => Ok(Made::Events(rebuild(alloc, events)?)),
        Made::Pushed(gauge) => Ok(Made::Pushed(rebuild(alloc, gauge)?)),
        Made::Pulled(gauge) => Ok(Made::Pulled(rebuild(alloc, gauge)?)),
    }
}

/// Runs a step: a call, or one that compares what is handed out, as `gives ROWS`, or how much, as `sizes ROWS OTHERS`.
fn run_step(
    alloc: Global,
    tester: &mut Tester,
    producer: &mut Made,
    step: &str,
) -> Result<(), AllocError> {
    if step.is_empty() {
        return Ok(());
    }
    if let Some(wanted) = step.strip_prefix("gives ") {
        tester.case();
        let found = closed_text(alloc, &taken(producer))?;
        return tester.same_text("handed out", wanted, found.as_str());
    }
    if let Some(wanted) = step.strip_prefix("sizes ") {
        tester.case();
        let closed = taken(producer);
        let (rows, others) = (closed.rows.len(), closed.not_kept);
        let found = format!(in alloc; "{rows} {others}")?;
        return tester.same_text("sizes", wanted, found.as_str());
    }
    if give_step(alloc, producer, step)? {
        return Ok(());
    }
    tester.differs("a step that isn't known", step)
}

/// Gives a producer the call of a step. Answers whether there is one.
fn give_step(alloc: Global, producer: &mut Made, step: &str) -> Result<bool, AllocError> {
    if let Made::Pulled(gauge) = producer {
        return give_pulled(alloc, gauge, step);
    }
    let Some(call) = call_of(step) else {
        return Ok(false);
    };
    give(alloc, producer, call)?;
    Ok(true)
}

fn taken(made: &mut Made) -> Closed<Seq<Atom>> {
    match made {
        Made::Events(events) => events.take(),
        Made::Pushed(gauge) => gauge.take(),
        Made::Pulled(gauge) => gauge.take(),
    }
}

/// Gives a producer a call, and an atom with it where the call is of one.
fn give(alloc: Global, made: &mut Made, call: Call) -> Result<(), AllocError> {
    let (key, number) = match call {
        Call::Atom(_, key, number) => (key, number),
        _ => (0, 0),
    };
    let atom = atom_of(alloc, number)?;
    match made {
        Made::Events(events) => act(events, call, atom),
        Made::Pushed(gauge) => {
            let key = key_of(alloc, key)?;
            act(gauge, call, KeyedAtom { key, atom })
        }
        Made::Pulled(_) => Ok(()),
    }
}
