//! Pulled gauges of the rows: their modes, and their calls by their words.
use super::calls::{Call, call_of};
use super::shown::{atom_of, key_of};
use bucket_clock::Crossings;
use config_types::Sampling;
use gauge_metric::{KeyedAtom, Producer, PulledGauge, SnapAtoms};
use predicate_state::Truth;
use sd_base::Seq;
use std::alloc::{AllocError, Global};
use test_tools::unsigned;

/// The mode of a word.
pub fn mode_of(text: &str) -> Option<Sampling> {
    match text {
        "start" => Some(Sampling::AtStart),
        "change" => Some(Sampling::AtChange),
        "trigger" => Some(Sampling::AtTrigger),
        _ => None,
    }
}

/// Gives a pulled gauge the call of some words, as `pulls 1 0:7 0:8`, `fails 1`, `told 2 unknown`, `triggers 3`, `cross
/// 10 0 10` or `cuts 5`. Answers whether there is one.
pub fn give_pulled(alloc: Global, gauge: &mut PulledGauge, step: &str) -> Result<bool, AllocError> {
    if let Some(event) = event_of(alloc, step)? {
        gauge.event(event.at, event.what)?;
        return Ok(true);
    }
    if let Some((at, truth)) = truth_of(step) {
        gauge.condition(at, truth)?;
        return Ok(true);
    }
    match call_of(step) {
        Some(Call::Cross(first_end, full_buckets, size)) => gauge.cross(Crossings {
            start: 0,
            first_end,
            full_buckets,
            size,
        })?,
        Some(Call::Cut(at)) => gauge.cut(at)?,
        _ => return Ok(false),
    }
    Ok(true)
}

/// An event and its time.
#[derive(Drop)]
struct Timed {
    at: u64,
    what: SnapAtoms,
}

fn event_of(alloc: Global, step: &str) -> Result<Option<Timed>, AllocError> {
    let mut words = step.split(' ');
    let name = words.next().unwrap_or("");
    let Some(at) = unsigned(words.next().unwrap_or("")) else {
        return Ok(None);
    };
    let what = match name {
        "pulls" => SnapAtoms::Snapshot(Some(samples_of(alloc, step)?)),
        "fails" => SnapAtoms::Snapshot(None),
        "triggers" => SnapAtoms::Trigger,
        _ => return Ok(None),
    };
    Ok(Some(Timed { at, what }))
}

/// The samples of a step, each a key and an atom's number, as `0:7`.
fn samples_of(alloc: Global, step: &str) -> Result<Seq<KeyedAtom>, AllocError> {
    let mut samples = Seq::new(alloc);
    for word in step.split(' ') {
        if let Some((key, number)) = word.split_once(':') {
            samples.push(sample_of(alloc, key, number)?)?;
        }
    }
    Ok(samples)
}

fn sample_of(alloc: Global, key: &str, number: &str) -> Result<KeyedAtom, AllocError> {
    let atom = atom_of(alloc, number.parse::<i32>().unwrap_or(-1))?;
    let key = key_of(alloc, key.parse::<i32>().unwrap_or(-1))?;
    Ok(KeyedAtom { key, atom })
}

/// The truth of words as `told 2 unknown`, and its time.
fn truth_of(step: &str) -> Option<(u64, Truth)> {
    let (name, rest) = step.split_once(' ')?;
    let (time, word) = rest.split_once(' ')?;
    if name != "told" {
        return None;
    }
    let truth = match word {
        "true" => Truth::True,
        "false" => Truth::False,
        "unknown" => Truth::Unknown,
        _ => return None,
    };
    Some((unsigned(time)?, truth))
}
