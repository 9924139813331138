//! Longest durations.
ghost use Rattle.std.specs.Prelude.{◌≡◌, ◌∷◌, ◌<◌, [], length, OnOk, IfOk};
ghost use Rattle.bucket_meaning.specs.Limits.{time_limit};
ghost use Rattle.config_types.specs.declared.parameters.PredSpec.{PredSpec};
ghost use Rattle.config_links.specs.declared.linked.LKind.TheVariants as kinds;
ghost use Rattle.config_links.specs.SoundConfig.{IsSize, IsBound, MayBeWithin};
ghost use Rattle.metric_meaning.specs.Histories.{Installation};
ghost use Rattle.report_writer.specs.Writable.{IsWritableMetric};
ghost use Rattle.client_engine.specs.AskedFew.{AsksFew};
ghost use Rattle.client_engine.specs.Bringing.{LaneLogs};
ghost use Rattle.client_engine.specs.LongestAlong.{LongestAlong};
ghost use Rattle.client_engine.specs.NextSteps.{TakesReport};
ghost use Rattle.client_engine.specs.SoundMetrics.{IsSoundIn};

use crate::brought::Brought;
use crate::inner::{changes_of, changes_with, delta_of};
use crate::kinds::durations::durations_tree;
use crate::moments::comes_by_pull;
use crate::request::ReportRequest;
use crate::stays::{Before, stays_with};
use crate::told::told_of;
use crate::turn::turn_of;
use crate::turns::{act, learn};
use atom_record::LogFrame;
use condition_links::Steps;
use config_links::LMetric;
use config_types::PredSpec;
use duration_metric::MaxProducer;
use known_conditions::Conditions;
use metric_lane::Lane;
use report_writer::MetricTree;
use session_frames::time_of;
use std::alloc::{AllocError, Global};
use std::sync::ledger::Ledger;

/// The lane of a metric of longest durations, which begins at `base` and keeps its inner keys so.
pub fn begin(alloc: Global, base: u64, metric: &LMetric, spec: PredSpec) -> Lane<MaxProducer>
    requires fits { base < time_limit }
    requires sized { IsSize metric.now.size }
    requires bound { IsBound spec.bound }
    ensures { (installed : Installation) → installed.base ≡ base → IsSoundIn installed.linked metric.now
        → metric.now.kind ≡ kinds.MaxSparse spec → LongestAlong metric.now installed [] result }
{
    let producer = MaxProducer::new(alloc, base, metric.size, spec);
    Lane::new(base, metric.size, producer)
}

/// A frame of the log comes. An atom acts on the inner keys, and what changed of them is told after it. One that
/// neither touches the metric nor tells a state by which it is sliced does nothing. What stays is found before it
/// acts.
#[inline(never)]
pub fn log<'a, L: Ledger>(
    lane: &mut Lane<MaxProducer>,
    metric: &'a LMetric,
    brought: &'a Brought<'a>,
    conditions: &mut Conditions,
    asks: &mut Steps<L>,
) -> Result<(), AllocError>
    requires within { MayBeWithin (length conditions.old.predicates) metric.now.condition }
    ensures logs { OnOk result (LaneLogs LongestAlong metric.now
        conditions.old brought.now lane.old lane.new) }
    ensures known { conditions.new ≡ conditions.old }
    ensures asks { AsksFew (LongestAlong metric.now) (metric.now ∷ [])
        conditions.old brought.now lane.old asks.old asks.new }
{
    let alloc = brought.alloc;
    let at = time_of(brought.frame);
    lane.cross(at, comes_by_pull(brought.frame))?;
    let LogFrame::AtomAt { atom, .. } = brought.frame else {
        return Ok(());
    };
    if !changes_with(metric, brought, atom, conditions) {
        return Ok(());
    }
    let turn = turn_of(alloc, metric, conditions, atom, brought.matched)?;
    let told = told_of(metric, conditions, brought, atom)?;
    let listed = lane.producer().inner_len();
    let turn = turn.as_ref();
    let told = told.as_ref();
    let before = Before { listed, turn, told };
    let stays = stays_with(metric, brought, atom, conditions, before);
    let event = conditions.inner_event(alloc, metric.what, atom, brought.matched)?;
    let acts = event.is_some();
    let came = event.as_ref();
    act(lane, at, came)?;
    conditions.give_event(event);
    let changes = changes_of(lane.producer(), metric, brought, stays, conditions, asks)?;
    learn(lane, at, delta_of(acts, changes))
}

/// A report, and what it shows of the metric.
pub fn report(
    lane: &mut Lane<MaxProducer>,
    alloc: Global,
    metric: &LMetric,
    base: u64,
    request: ReportRequest,
) -> Result<MetricTree, AllocError>
    ensures reports { IfOk result (TakesReport (LongestAlong metric.now)
        metric.now base request lane.old lane.new) }
    ensures writable { IfOk result IsWritableMetric }
{
    let closed = lane.report(request.at, request.include_current)?;
    durations_tree(alloc, base, metric, closed)
}
