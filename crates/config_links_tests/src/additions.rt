//! Activations and alerts of a row, which no bytes say so far: they are added to the tree.
use config_types::{
    ActivationDef, AlertDef, Common, Config, CountDef, DurationDef, EventDef, GaugeDef, ValueDef,
};
use sd_base::Seq;
use std::alloc::{AllocError, Global};
use test_tools::{Tester, signed};

/// What stands for a number that isn't there.
const ABSENT: &str = "-";

/// A definition of some metric.
trait Activated: Drop {
    /// What it has as every metric.
    fn common(&mut self) -> &mut Common;
}

impl Activated for EventDef {
    fn common(&mut self) -> &mut Common {
        &mut self.common
    }
}

impl Activated for CountDef {
    fn common(&mut self) -> &mut Common {
        &mut self.common
    }
}

impl Activated for ValueDef {
    fn common(&mut self) -> &mut Common {
        &mut self.common
    }
}

impl Activated for GaugeDef {
    fn common(&mut self) -> &mut Common {
        &mut self.common
    }
}

impl Activated for DurationDef {
    fn common(&mut self) -> &mut Common {
        &mut self.common
    }
}

/// Gives an activation to the metrics of an id.
fn activate<D: Activated>(
    defs: Seq<D>,
    metric: Option<i64>,
    activation: ActivationDef,
) -> Result<Seq<D>, AllocError> {
    let mut items = defs.into_vec();
    for def in items.iter_mut() {
        add_activation(def.common(), metric, activation)?;
    }
    Ok(Seq::from_vec(items))
}

fn add_activation(
    common: &mut Common,
    metric: Option<i64>,
    activation: ActivationDef,
) -> Result<(), AllocError> {
    if common.id == metric {
        common.activations.push(activation)?;
    }
    Ok(())
}

/// The numbers of a text, with its loops written out.
fn numbers_of(
    alloc: Global,
    tester: &mut Tester,
    text: &str,
) -> Result<Vec<Option<i64>>, AllocError> {
    let mut numbers = Vec::new(alloc);
    let Some(text) = tester.written_out(text)? else {
        return Ok(numbers);
    };
    for word in text.as_str().split(' ') {
        if !word.is_empty() {
            numbers.push(number_of(word))?;
        }
    }
    Ok(numbers)
}

/// A number, unless it isn't there. A word that is none is the least number.
fn number_of(word: &str) -> Option<i64> {
    if word == ABSENT {
        return None;
    }
    Some(signed(word).unwrap_or(i64::MIN))
}

/// A tree with the activations of a text: for each the id of its metric, and then its start, time and cancel.
pub fn with_activations(
    alloc: Global,
    tester: &mut Tester,
    config: Config,
    text: &str,
) -> Result<Config, AllocError> {
    let numbers = numbers_of(alloc, tester, text)?;
    let mut tree = config;
    for group in numbers.as_slice().chunks_exact(4) {
        if let [metric, start, ttl, cancel] = group {
            let activation = ActivationDef {
                start: *start,
                ttl: *ttl,
                cancel: *cancel,
            };
            tree = active(tree, *metric, activation)?;
        }
    }
    Ok(tree)
}

/// A tree with one activation more.
fn active(
    tree: Config,
    metric: Option<i64>,
    activation: ActivationDef,
) -> Result<Config, AllocError> {
    Ok(Config {
        matchers: tree.matchers,
        predicates: tree.predicates,
        states: tree.states,
        events: activate(tree.events, metric, activation)?,
        counts: activate(tree.counts, metric, activation)?,
        values: activate(tree.values, metric, activation)?,
        gauges: activate(tree.gauges, metric, activation)?,
        durations: activate(tree.durations, metric, activation)?,
        no_report: tree.no_report,
        alerts: tree.alerts,
    })
}

/// Adds the alerts of a text: for each its id, metric, threshold, parts and refractory time.
pub fn add_alerts(
    alloc: Global,
    tester: &mut Tester,
    alerts: &mut Seq<AlertDef>,
    text: &str,
) -> Result<(), AllocError> {
    let numbers = numbers_of(alloc, tester, text)?;
    for group in numbers.as_slice().chunks_exact(5) {
        if let [id, metric, threshold, parts, refractory] = group {
            alerts.push(AlertDef {
                id: *id,
                metric: *metric,
                threshold: *threshold,
                parts: narrow(*parts),
                refractory: *refractory,
            })?;
        }
    }
    Ok(())
}

fn narrow(number: Option<i64>) -> Option<i32> {
    i32::try_from(number?).ok()
}
