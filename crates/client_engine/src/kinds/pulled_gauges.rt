//! Pulled gauges.
ghost use Rattle.std.specs.Prelude.{◌≡◌, ◌∷◌, ◌++◌, ℕ, [], length, map, All, Option, IfSome, OnOk, IfOk};
ghost use Rattle.std.specs.Option.{option_map};
ghost use Rattle.book_meaning.specs.Snapshots.{atoms_in};
ghost use Rattle.pull_book.specs.PullItems.{HoldsSoundAtoms};
ghost use Rattle.field_select.specs.declared.leaf.FieldSet.{FieldSet};
ghost use Rattle.config_links.specs.SoundConfig.{IsSize, IsBound, AreSamples, MayBeWithin};
ghost use Rattle.config_links.specs.declared.linked.LKind.TheVariants as kinds;
ghost use Rattle.config_types.specs.declared.parameters.Sampling.{Sampling};
ghost use Rattle.metric_meaning.specs.Histories.{Installation};
ghost use Rattle.metric_meaning.specs.Samples.{sample_of};
ghost use Rattle.metric_meaning.specs.SnapshotSteps.{pulled_key};
ghost use Rattle.metric_meaning.specs.PulledGaugeSteps.{pulled_samples};
ghost use Rattle.metric_calls.specs.PushedGaugeCalls.{handed_sample};
ghost use Rattle.metric_calls.specs.PulledGaugeCalls.{gauge_telling};
ghost use Rattle.report_writer.specs.Writable.{IsWritableMetric};
ghost use Rattle.client_engine.specs.NextSteps.{TakesReport};
ghost use Rattle.client_engine.specs.AskedFew.{LaneAsksFew};
ghost use Rattle.client_engine.specs.Bringing.{LaneLogs};
ghost use Rattle.client_engine.specs.Opens.{IsOpeningOf, CanOpen};
ghost use Rattle.client_engine.specs.Finding.{MayAsk, CanBeBrought, CanBeMeant, meant_in};
ghost use Rattle.client_engine.specs.PulledGaugesAlong.{PulledGaugesAlong, GetsSnapshot, GetsTrigger};

use crate::brought::Brought;
use crate::first_truth::first_truth;
use crate::kinds::gauges::gauges_tree;
use crate::moments::comes_by_pull;
use crate::opening::Opening;
use crate::request::ReportRequest;
use crate::samples::sample_of;
use crate::snapshots::{Found, found_at_first, found_in, is_told};
use atom_record::{Atom, LogFrame, MetricKey, PullOutcome};
use condition_links::Steps;
use config_links::{LKind, LMetric};
use config_types::Sampling;
use field_select::{FieldSet, key_of};
use gauge_metric::{KeyedAtom, PulledGauge, SampleSpec, SnapAtoms};
use known_conditions::{Conditions, Nothing, is_true_if_named};
use matcher_eval::{FieldJudge, Judge};
use metric_lane::Lane;
use metric_producer::Producer;
use report_writer::MetricTree;
use sd_base::Seq;
use session_frames::time_of;
use std::alloc::{AllocError, Global};
use std::sync::ledger::Ledger;

/// The lane of a pulled gauge that keeps so many samples of a key in a part, at these moments. It is told the last
/// snapshot and the condition, as they stand at the installation.
pub fn begin(
    metric: &LMetric,
    samples: u32,
    mode: Sampling,
    opening: &Opening<'_>,
    conditions: &mut Conditions,
) -> Result<Lane<PulledGauge>, AllocError>
    requires opens { CanOpen opening.now }
    requires sized { IsSize metric.now.size }
    requires bound { IsBound metric.now.bound }
    requires sampled { AreSamples metric.now.bound samples }
    requires within { MayBeWithin (length conditions.old.predicates) metric.now.condition }
    ensures stands { IfOk result (λ lane. (installed : Installation) (fields : Option FieldSet)
        (trigger : Option ℕ) → IsOpeningOf installed opening.now conditions.old
        → metric.now.kind ≡ kinds.PulledGauge fields samples mode trigger
        → PulledGaugesAlong metric.now installed [] lane) }
    ensures known { conditions.new ≡ conditions.old }
{
    let bound = metric.bound as usize;
    let spec = SampleSpec {
        samples: samples as usize,
        mode,
    };
    let mut producer = PulledGauge::new(opening.alloc, opening.base, metric.size, bound, spec);
    let snapshot = snapshot_of(opening.alloc, metric, &found_at_first(opening, metric))?;
    producer.event(opening.base, snapshot)?;
    let now = first_truth(opening.alloc, metric, conditions)?;
    producer.condition(opening.base, now)?;
    Ok(Lane::new(opening.base, metric.size, producer))
}

/// A frame of the log comes.
pub fn log<L: Ledger>(
    lane: &mut Lane<PulledGauge>,
    metric: &LMetric,
    brought: &Brought<'_>,
    conditions: &mut Conditions,
    asks: &mut Steps<L>,
) -> Result<(), AllocError>
    requires within { MayBeWithin (length conditions.old.predicates) metric.now.condition }
    requires matched { CanBeBrought brought.now }
    ensures logs { OnOk result (LaneLogs PulledGaugesAlong metric.now
        conditions.old brought.now lane.old lane.new) }
    ensures known { conditions.new ≡ conditions.old }
    ensures asks { LaneAsksFew PulledGaugesAlong metric.now conditions.old brought.now lane.old asks.old asks.new }
{
    // A frame crosses ends before it tells anything; a pull at the very end of a part belongs to it.
    lane.cross(time_of(brought.frame), comes_by_pull(brought.frame))?;
    match brought.frame {
        LogFrame::Tick { .. } => Ok(()),
        LogFrame::AtomAt { at, .. } => {
            // An atom that doesn't touch the gauge leaves its condition, and isn't one of its trigger.
            if !conditions.touches(metric, brought.matched) {
                return Ok(());
            }
            let now = conditions.truth(brought.alloc, metric, &Nothing, asks)?;
            lane.condition(*at, now)?;
            trigger(lane, metric, brought, *at)
        }
        LogFrame::Pull { at, id, outcome } => {
            if !is_told(brought.matchers, metric, *id) {
                return Ok(());
            }
            pull(lane, metric, brought, *at, outcome)
        }
    }
}

// An atom comes. It is told, after the condition, where it matches the trigger.
fn trigger(
    lane: &mut Lane<PulledGauge>,
    metric: &LMetric,
    brought: &Brought<'_>,
    at: u64,
) -> Result<(), AllocError>
    ensures { OnOk result
        (GetsTrigger metric.now lane.old lane.new at brought.now.matched.now) }
{
    let LKind::PulledGauge { trigger, .. } = &metric.kind else {
        return Ok(());
    };
    if !is_true_if_named(brought.matched, *trigger) {
        return Ok(());
    }
    lane.event(at, SnapAtoms::Trigger)
}

// A pull of the gauge's id comes.
fn pull(
    lane: &mut Lane<PulledGauge>,
    metric: &LMetric,
    brought: &Brought<'_>,
    at: u64,
    outcome: &PullOutcome,
) -> Result<(), AllocError>
    requires askable { All MayAsk brought.now.matchers.now }
    requires sound { HoldsSoundAtoms outcome.now }
    ensures { OnOk result (GetsSnapshot metric.now brought.now.matchers.now lane.old lane.new
        at (atoms_in outcome.now)) }
{
    let found = found_in(brought.matchers, metric, outcome);
    let snapshot = snapshot_of(brought.alloc, metric, &found)?;
    lane.event(at, snapshot)
}

/// A report, and what it shows of the metric.
pub fn report(
    lane: &mut Lane<PulledGauge>,
    alloc: Global,
    metric: &LMetric,
    base: u64,
    request: ReportRequest,
) -> Result<MetricTree, AllocError>
    ensures reports { IfOk result (TakesReport (PulledGaugesAlong metric.now)
        metric.now base request lane.old lane.new) }
    ensures writable { IfOk result IsWritableMetric }
{
    let closed = lane.report(request.at, request.include_current)?;
    gauges_tree(alloc, base, metric, closed)
}

// The samples of what was found, each with its atom's key, or that there is no snapshot.
fn snapshot_of(
    alloc: Global,
    metric: &LMetric,
    found: &Option<Found<'_>>,
) -> Result<SnapAtoms, AllocError>
    requires meant { IfSome found.now CanBeMeant }
    ensures { (fields : Option FieldSet) (samples : ℕ) (mode : Sampling) (trigger : Option ℕ)
        → metric.now.kind ≡ kinds.PulledGauge fields samples mode trigger
        → IfOk result (λ snapshot. snapshot
        ≡ (gauge_telling metric.now fields trigger).snapshot (option_map meant_in found.now)) }
{
    let (Some(found), LKind::PulledGauge { fields, .. }) = (found, &metric.kind) else {
        return Ok(SnapAtoms::Snapshot(None));
    };
    let samples = samples_of(alloc, metric, fields, found)?;
    Ok(SnapAtoms::Snapshot(Some(samples)))
}

// The samples of the atoms that are meant, each with its atom's key.
fn samples_of(
    alloc: Global,
    metric: &LMetric,
    fields: &Option<FieldSet>,
    found: &Found<'_>,
) -> Result<Seq<KeyedAtom>, AllocError>
    requires meant { CanBeMeant found.now }
    ensures { IfOk result (λ samples. samples
        ≡ map handed_sample (pulled_samples metric.now fields.now (meant_in found.now))) }
{
    let mut judge = FieldJudge::new();
    let mut samples = Seq::new(alloc);
    for atom in found.atoms {
        if judge.eval_simple(found.matcher, atom) {
            samples.push(keyed_sample(alloc, metric, fields, atom)?)?;
        }
    }
    Ok(samples)
}

// The sample of a pulled atom, with its key.
fn keyed_sample(
    alloc: Global,
    metric: &LMetric,
    fields: &Option<FieldSet>,
    atom: &Atom,
) -> Result<KeyedAtom, AllocError>
    ensures { IfOk result (λ sample. sample ≡ handed_sample
        (pulled_key metric.now atom.now, sample_of fields.now atom.now)) }
{
    let key = MetricKey {
        dims: key_of(alloc, &metric.dims, atom)?,
        slices: Seq::new(alloc),
    };
    let atom = sample_of(alloc, fields, atom)?;
    Ok(KeyedAtom { key, atom })
}
