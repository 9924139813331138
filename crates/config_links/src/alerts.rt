//! Alerts, linked.
ghost use Rattle.std.specs.Prelude.{◌≡◌, map};
ghost use Rattle.std.specs.Option.{option_copied};
ghost use Rattle.std.specs.List.{All};
ghost use Rattle.link_rules.specs.LinkFaults.{Links, PassesTest};
ghost use Rattle.config_links.specs.LinkAlerts as words;
ghost use Rattle.config_links.specs.Verdict.{bad_alert_fault};

use crate::LAlert;
use crate::activations::{SECOND_NANOS, amount_of};
use crate::predicates::choose_bound;
use crate::reasons::{Reason, make_fault};
use crate::scope::read_number;
use config_types::{AlertDef, AlertSpec};
use link_rules::{Kind, Known, LinkError, Metric};
use sd_base::Seq;
use std::alloc::Global;

// The metric that an alert watches.
fn find_watched<'a>(known: &Known, metrics: &'a [Metric], def: &AlertDef) -> Option<&'a Metric>
    ensures { option_copied result ≡ words.watched known.now metrics.now def.now }
{
    metrics.get(known.place(def.metric?)? as usize)
}

// Whether an alert doesn't say which metric it watches, what a count has to pass, or over how many parts.
fn lacks_part(def: &AlertDef) -> bool
    ensures { result ≡ words.lacks_part def.now }
{
    def.metric.is_none() || def.threshold.is_none() || def.parts.is_none()
}

// Whether there is a metric, and it doesn't count.
fn counts_none(metric: Option<&Metric>) -> bool
    ensures { result ≡ words.counts_none (option_copied metric.entry) }
{
    match metric {
        Some(metric) => !matches!(metric.kind, Kind::Count { .. }),
        None => false,
    }
}

// How many keys a part of the metric admits.
fn bound_of(metric: Option<&Metric>) -> u32
    ensures { result ≡ words.bound_of (option_copied metric.entry) }
{
    match metric {
        Some(metric) => choose_bound(metric.sliced.bound),
        None => choose_bound(None),
    }
}

// An alert, linked, or its least reason.
fn alert_in(known: &Known, metrics: &[Metric], def: &AlertDef) -> Result<LAlert, LinkError>
    requires { words.IsPatient def.now }
    ensures { Links result (words.bad_alert known.now metrics.now def.now)
        (words.linked_alert known.now metrics.now def.now) }
{
    if lacks_part(def) {
        return Err(LinkError::Fault(make_fault(def.id, Reason::BadAlert)));
    }
    let watched = find_watched(known, metrics, def);
    if counts_none(watched) {
        return Err(LinkError::Fault(make_fault(def.id, Reason::NotCounted)));
    }
    Ok(LAlert {
        id: def.id.unwrap_or(0),
        metric: known.locate(def.metric.unwrap_or(0)),
        spec: AlertSpec {
            bound: bound_of(watched),
            parts: read_number(def.parts),
            threshold: amount_of(def.threshold),
            refractory: amount_of(def.refractory) * SECOND_NANOS,
        },
    })
}

/// The alerts on these metrics, linked, or the first reason.
#[tactic(auto, unfolding(crate::specs::Verdict::bad_alert_fault))]
pub fn alerts_in(
    alloc: Global,
    known: &Known,
    metrics: &[Metric],
    defs: &[AlertDef],
) -> Result<Seq<LAlert>, LinkError>
    requires { All words.IsPatient defs.now }
    ensures { Links result (bad_alert_fault known.now metrics.now defs.now)
        (map (words.linked_alert known.now metrics.now) defs.now) }
{
    let mut linked = Seq::new(alloc);
    for def in defs {
        linked.push(alert_in(known, metrics, def)?)?;
    }
    Ok(linked)
}
