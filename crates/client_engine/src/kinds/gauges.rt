//! Pushed gauges.
ghost use Rattle.std.specs.Prelude.{◌≡◌, ◌∷◌, ◌<◌, [], length, Option, OnOk, IfOk};
ghost use Rattle.bucket_meaning.specs.Limits.{time_limit};
ghost use Rattle.field_select.specs.declared.leaf.FieldSet.{FieldSet};
ghost use Rattle.config_links.specs.SoundConfig.{IsSize, IsBound, AreSamples};
ghost use Rattle.config_links.specs.declared.linked.LKind.TheVariants as kinds;
ghost use Rattle.metric_meaning.specs.Histories.{Installation};
ghost use Rattle.metric_meaning.specs.GaugeTrees.{gauge_body};
ghost use Rattle.metric_meaning.specs.KeyTrees.{key_tree};
ghost use Rattle.report_writer.specs.Writable.{AreWritableRows, IsWritableMetric};
ghost use Rattle.client_engine.specs.NextSteps.{TakesReport};
ghost use Rattle.client_engine.specs.AskedFew.{LaneAsksFew};
ghost use Rattle.client_engine.specs.Bringing.{LaneTakes};
ghost use Rattle.client_engine.specs.GaugesAlong.{GaugesAlong, GetsSampleOf, sample_bucket, gauge_entry, gauges_shown_by};
ghost use Rattle.client_engine.specs.Tracks.{AsksWithin};

use crate::arriving::{arriving, key_in};
use crate::brought::{Brought, Taker};
use crate::groups::{RowShape, groups_of};
use crate::leaves::leaves_of;
use crate::messages::messages_of;
use crate::moments::comes_by_pull;
use crate::request::ReportRequest;
use crate::samples::sample_of;
use atom_record::{Atom, MetricKey};
use condition_links::Steps;
use config_links::{LKind, LMetric};
use gauge_metric::{KeyedAtom, PushedGauge};
use known_conditions::Conditions;
use metric_lane::Lane;
use metric_producer::{Closed, Row};
use report_writer::{AtomBucket, GaugeTree, MetricBody, MetricTree};
use sd_base::Seq;
use session_frames::time_of;
use std::alloc::{AllocError, Global};
use std::sync::ledger::Ledger;

/// Samples, as a report shows them.
struct SampleRows;

impl RowShape for SampleRows {
    ghost use Rattle.atom_record.specs.Equal.{metric_key_exact};

    type Value = Seq<Atom>;

    type Group = MetricKey;

    type Bucket = AtomBucket;

    type Tree = GaugeTree;

    ghost group_of = { λ key value. key };

    ghost exact = { metric_key_exact };

    ghost bucket = { sample_bucket };

    ghost tree = { key_tree gauge_entry };

    fn group_of(key: MetricKey, _value: &Seq<Atom>) -> MetricKey {
        key
    }

    fn bucket(
        alloc: Global,
        start: u64,
        end: u64,
        value: Seq<Atom>,
    ) -> Result<AtomBucket, AllocError>
        ensures { IfOk result (λ shown. shown ≡ sample_bucket start end value) }
    {
        let atoms = messages_of(alloc, value.as_slice())?;
        Ok(AtomBucket { start, end, atoms })
    }

    fn tree(
        alloc: Global,
        group: MetricKey,
        buckets: Seq<AtomBucket>,
    ) -> Result<GaugeTree, AllocError>
        ensures { IfOk result (λ shown. shown ≡ key_tree gauge_entry group buckets) }
    {
        let MetricKey { dims, slices } = group;
        let leaves = leaves_of(alloc, dims)?;
        Ok(GaugeTree {
            leaves,
            slices,
            buckets,
        })
    }
}

/// The lane of a pushed gauge, which begins at `base` and keeps so many samples of a key in a part.
pub fn begin(alloc: Global, base: u64, metric: &LMetric, samples: u32) -> Lane<PushedGauge>
    requires fits { base < time_limit }
    requires sized { IsSize metric.now.size }
    requires bound { IsBound metric.now.bound }
    requires sampled { AreSamples metric.now.bound samples }
    ensures { (installed : Installation) (fields : Option FieldSet) → installed.base ≡ base
        → metric.now.kind ≡ kinds.PushedGauge fields samples
        → GaugesAlong metric.now installed [] result }
{
    let bound = metric.bound as usize;
    let producer = PushedGauge::new(alloc, base, metric.size, bound, samples as usize);
    Lane::new(base, metric.size, producer)
}

/// A frame of the log comes.
pub fn log<L: Ledger>(
    lane: &mut Lane<PushedGauge>,
    taker: &Taker<'_>,
    brought: &Brought<'_>,
    conditions: &mut Conditions,
    asks: &mut Steps<L>,
) -> Result<(), AllocError>
    requires within { AsksWithin (length conditions.old.predicates) taker.now.metric.now }
    ensures logs { OnOk result (LaneTakes GaugesAlong taker.now
        conditions.old brought.now lane.old lane.new) }
    ensures known { conditions.new ≡ conditions.old }
    ensures asks { LaneAsksFew GaugesAlong taker.now.metric.now
        conditions.old brought.now lane.old asks.old asks.new }
{
    // The ends come first, since a key that has all its samples in the part before has none in the next.
    lane.cross(time_of(brought.frame), comes_by_pull(brought.frame))?;
    match arriving(taker.metric, taker.is_active, brought, conditions, asks)? {
        Some(atom) => sample(lane, taker.metric, brought, atom),
        None => Ok(()),
    }
}

// The atom that arrives is sampled. It isn't copied where its key has all samples.
fn sample(
    lane: &mut Lane<PushedGauge>,
    metric: &LMetric,
    brought: &Brought<'_>,
    atom: &Atom,
) -> Result<(), AllocError>
    ensures { OnOk result
        (GetsSampleOf metric.now brought.now atom.now lane.old lane.new) }
{
    let LKind::PushedGauge { fields, .. } = &metric.kind else {
        return Ok(());
    };
    let key = key_in(metric, brought, atom)?;
    if lane.producer().lets_go(&key) {
        return Ok(());
    }
    let atom = sample_of(brought.alloc, fields, atom)?;
    lane.event(time_of(brought.frame), KeyedAtom { key, atom })
}

/// A report, and what it shows of the metric.
pub fn report(
    lane: &mut Lane<PushedGauge>,
    alloc: Global,
    metric: &LMetric,
    base: u64,
    request: ReportRequest,
) -> Result<MetricTree, AllocError>
    ensures reports { IfOk result (TakesReport (GaugesAlong metric.now)
        metric.now base request lane.old lane.new) }
    ensures writable { IfOk result IsWritableMetric }
{
    let closed = lane.report(request.at, request.include_current)?;
    gauges_tree(alloc, base, metric, closed)
}

/// A gauge, pushed or pulled, with what a report shows of it.
pub fn gauges_tree(
    alloc: Global,
    base: u64,
    metric: &LMetric,
    closed: Closed<Seq<Atom>>,
) -> Result<MetricTree, AllocError>
    ensures shown { IfOk result (λ tree. tree ≡ gauges_shown_by base metric.now closed) }
    ensures writable { IfOk result IsWritableMetric }
{
    let body = gauges_body(alloc, closed.rows)?;
    Ok(MetricTree {
        id: metric.id,
        base,
        size: metric.size,
        dropped: closed.dropped,
        not_kept: closed.not_kept,
        missing: closed.missing,
        body,
    })
}

// The rows of a gauge, by their keys, with the messages of their atoms.
fn gauges_body(alloc: Global, rows: Seq<Row<Seq<Atom>>>) -> Result<MetricBody, AllocError>
    ensures shown { IfOk result (λ body. body ≡ gauge_body rows) }
    ensures writable { IfOk result AreWritableRows }
{
    let groups = groups_of::<SampleRows>(alloc, rows)?;
    Ok(MetricBody::Gauges(groups))
}
