//! Metrics of pulled values.
ghost use Rattle.std.specs.Prelude.{◌≡◌, ◌∷◌, ◌++◌, [], length, map, All, IfSome, OnOk, IfOk};
ghost use Rattle.std.specs.Option.{option_map};
ghost use Rattle.book_meaning.specs.Snapshots.{atoms_in};
ghost use Rattle.pull_book.specs.PullItems.{HoldsSoundAtoms};
ghost use Rattle.config_types.specs.declared.parameters.DiffSpec.{DiffSpec};
ghost use Rattle.config_links.specs.SoundConfig.{IsSize, IsBound, MayBeWithin};
ghost use Rattle.metric_meaning.specs.Histories.{Installation};
ghost use Rattle.metric_meaning.specs.ValueLeaves.{ValueLeaf};
ghost use Rattle.metric_meaning.specs.PulledValueSteps.{pulled_integers, with_pulled_key};
ghost use Rattle.metric_calls.specs.ValueCalls.{keyed_int};
ghost use Rattle.metric_calls.specs.PulledValueCalls.{snap_ints};
ghost use Rattle.report_writer.specs.Writable.{IsWritableMetric};
ghost use Rattle.client_engine.specs.NextSteps.{TakesReport};
ghost use Rattle.client_engine.specs.AskedFew.{LaneAsksFew};
ghost use Rattle.client_engine.specs.Bringing.{LaneLogs};
ghost use Rattle.client_engine.specs.Opens.{IsOpeningOf, CanOpen};
ghost use Rattle.client_engine.specs.Finding.{MayAsk, CanBeBrought, CanBeMeant, meant_in, found_among};
ghost use Rattle.client_engine.specs.PulledValuesAlong.{pulled_kind_at, PulledValuesAlong, GetsPull};

use crate::brought::Brought;
use crate::first_truth::first_truth;
use crate::integers::read_integer;
use crate::kinds::values::values_tree;
use crate::moments::comes_by_pull;
use crate::opening::Opening;
use crate::request::ReportRequest;
use crate::snapshots::{Found, found_at_first, found_in, is_told};
use atom_record::{Atom, LogFrame, MetricKey, PullOutcome};
use condition_links::Steps;
use config_links::{LKind, LMetric};
use config_types::DiffSpec;
use field_select::{LeafPath, key_of};
use known_conditions::{Conditions, Nothing};
use matcher_eval::{FieldJudge, Judge};
use metric_lane::Lane;
use metric_producer::Producer;
use report_writer::MetricTree;
use sd_base::Seq;
use session_frames::time_of;
use std::alloc::{AllocError, Global};
use std::sync::ledger::Ledger;
use value_metric::{KeyedInt, PulledValue, SnapInts};

/// The lane of a metric of pulled values with such differences. It is told the last snapshot and the condition, as they
/// stand at the installation.
pub fn begin(
    metric: &LMetric,
    spec: DiffSpec,
    opening: &Opening<'_>,
    conditions: &mut Conditions,
) -> Result<Lane<PulledValue>, AllocError>
    requires opens { CanOpen opening.now }
    requires sized { IsSize metric.now.size }
    requires bound { IsBound metric.now.bound }
    requires within { MayBeWithin (length conditions.old.predicates) metric.now.condition }
    ensures stands { IfOk result (λ lane. (installed : Installation) (source : ValueLeaf)
        → IsOpeningOf installed opening.now conditions.old
        → metric.now.kind ≡ pulled_kind_at source spec
        → PulledValuesAlong metric.now installed [] lane) }
    ensures known { conditions.new ≡ conditions.old }
{
    let bound = metric.bound as usize;
    let mut producer = PulledValue::new(opening.alloc, opening.base, metric.size, bound, spec);
    let snapshot = snapshot_of(opening.alloc, metric, &found_at_first(opening, metric))?;
    producer.event(opening.base, snapshot)?;
    let now = first_truth(opening.alloc, metric, conditions)?;
    producer.condition(opening.base, now)?;
    Ok(Lane::new(opening.base, metric.size, producer))
}

/// A frame of the log comes.
pub fn log<L: Ledger>(
    lane: &mut Lane<PulledValue>,
    metric: &LMetric,
    brought: &Brought<'_>,
    conditions: &mut Conditions,
    asks: &mut Steps<L>,
) -> Result<(), AllocError>
    requires within { MayBeWithin (length conditions.old.predicates) metric.now.condition }
    requires matched { CanBeBrought brought.now }
    ensures logs { OnOk result (LaneLogs PulledValuesAlong metric.now
        conditions.old brought.now lane.old lane.new) }
    ensures known { conditions.new ≡ conditions.old }
    ensures asks { LaneAsksFew PulledValuesAlong metric.now conditions.old brought.now lane.old asks.old asks.new }
{
    // A frame crosses ends before it tells anything; a pull at the very end of a part belongs to it.
    lane.cross(time_of(brought.frame), comes_by_pull(brought.frame))?;
    match brought.frame {
        LogFrame::Tick { .. } => Ok(()),
        LogFrame::AtomAt { at, .. } => {
            // An atom that doesn't touch the metric leaves its condition.
            if !conditions.touches(metric, brought.matched) {
                return Ok(());
            }
            let now = conditions.truth(brought.alloc, metric, &Nothing, asks)?;
            lane.condition(*at, now)
        }
        LogFrame::Pull { at, id, outcome } => {
            if !is_told(brought.matchers, metric, *id) {
                return Ok(());
            }
            pull(lane, metric, brought, *at, outcome)
        }
    }
}

// A pull of the metric's id comes.
fn pull(
    lane: &mut Lane<PulledValue>,
    metric: &LMetric,
    brought: &Brought<'_>,
    at: u64,
    outcome: &PullOutcome,
) -> Result<(), AllocError>
    requires askable { All MayAsk brought.now.matchers.now }
    requires sound { HoldsSoundAtoms outcome.now }
    ensures { OnOk result (GetsPull metric.now brought.now.matchers.now lane.old lane.new
        at (atoms_in outcome.now)) }
{
    let found = found_in(brought.matchers, metric, outcome);
    let snapshot = snapshot_of(brought.alloc, metric, &found)?;
    lane.event(at, snapshot)
}

/// A report, and what it shows of the metric.
pub fn report(
    lane: &mut Lane<PulledValue>,
    alloc: Global,
    metric: &LMetric,
    base: u64,
    request: ReportRequest,
) -> Result<MetricTree, AllocError>
    ensures reports { IfOk result (TakesReport (PulledValuesAlong metric.now)
        metric.now base request lane.old lane.new) }
    ensures writable { IfOk result IsWritableMetric }
{
    let closed = lane.report(request.at, request.include_current)?;
    values_tree(alloc, base, metric, closed)
}

// The integers of what was found, each with its atom's key, or that there is no snapshot.
fn snapshot_of(
    alloc: Global,
    metric: &LMetric,
    found: &Option<Found<'_>>,
) -> Result<SnapInts, AllocError>
    requires meant { IfSome found.now CanBeMeant }
    ensures { (source : ValueLeaf) (spec : DiffSpec) → metric.now.kind ≡ pulled_kind_at source spec
        → IfOk result (λ snapshot. snapshot
        ≡ snap_ints (option_map (pulled_integers metric.now source) (option_map meant_in found.now))) }
{
    let (Some(found), LKind::PulledValue { atom_id, leaf, .. }) = (found, &metric.kind) else {
        return Ok(SnapInts { found: None });
    };
    let integers = integers_of(alloc, metric, *atom_id, *leaf, found)?;
    Ok(SnapInts {
        found: Some(integers),
    })
}

// The integers at a leaf of the atoms that are meant, each with its atom's key.
fn integers_of(
    alloc: Global,
    metric: &LMetric,
    atom_id: u32,
    leaf: LeafPath,
    found: &Found<'_>,
) -> Result<Seq<KeyedInt>, AllocError>
    requires meant { CanBeMeant found.now }
    ensures { IfOk result (λ integers. integers ≡ map keyed_int (pulled_integers metric.now
        (record { atom_id = atom_id; leaf = leaf }) (meant_in found.now))) }
{
    let mut judge = FieldJudge::new();
    let mut integers = Seq::with_capacity(alloc, found.atoms.len())?;
    for atom in found.atoms {
        if judge.eval_simple(found.matcher, atom) {
            add_integer(
                alloc,
                metric,
                &mut integers,
                atom,
                read_integer(atom_id, leaf, atom),
            )?;
        }
    }
    Ok(integers)
}

// Adds an atom's integer with its key, if it has one.
fn add_integer(
    alloc: Global,
    metric: &LMetric,
    integers: &mut Seq<KeyedInt>,
    atom: &Atom,
    value: Option<i64>,
) -> Result<(), AllocError>
    ensures { OnOk result (integers.new
        ≡ integers.old ++ map keyed_int (with_pulled_key metric.now atom.now value)) }
{
    let Some(value) = value else {
        return Ok(());
    };
    let key = MetricKey {
        dims: key_of(alloc, &metric.dims, atom)?,
        slices: Seq::new(alloc),
    };
    integers.push(KeyedInt { key, value })
}
