//! Metrics of pushed values.
ghost use Rattle.std.specs.Prelude.{◌≡◌, ◌+◌, ◌≤◌, ◌∷◌, ◌<◌, [], length, OnOk, IfOk};
ghost use Rattle.std.specs.Option.{option_map};
ghost use Rattle.bucket_meaning.specs.Limits.{time_limit};
ghost use Rattle.config_links.specs.SoundConfig.{IsSize, IsBound, MayBeWithin};
ghost use Rattle.metric_meaning.specs.Histories.{Installation};
ghost use Rattle.metric_meaning.specs.KeyTrees.{key_tree};
ghost use Rattle.metric_meaning.specs.ValueLeaves.{ValueLeaf};
ghost use Rattle.metric_meaning.specs.PushedValueSteps.{value_arrival_by};
ghost use Rattle.metric_calls.specs.ValueCalls.{keyed_int};
ghost use Rattle.report_writer.specs.Writable.{IsWritableMetric};
ghost use Rattle.client_engine.specs.NextSteps.{TakesReport};
ghost use Rattle.client_engine.specs.AskedFew.{LaneAsksFew, arrival_questions};
ghost use Rattle.client_engine.specs.Bringing.{brought_step, WhereActive, LaneTakes};
ghost use Rattle.client_engine.specs.ValuesAlong.{value_kind_at, ValuesAlong, values_shown_by, shown_value, value_entry};
ghost use Rattle.client_engine.specs.Tracks.{AsksWithin};

use crate::arriving::{arriving, key_in};
use crate::brought::{Brought, Taker};
use crate::groups::{RowShape, groups_of};
use crate::integers::read_integer;
use crate::leaves::leaves_of;
use crate::moments::comes_by_pull;
use crate::request::ReportRequest;
use atom_record::MetricKey;
use condition_links::Steps;
use config_links::{LKind, LMetric};
use config_types::Aggregation;
use known_conditions::Conditions;
use metric_lane::Lane;
use metric_producer::Closed;
use report_writer::{MetricBody, MetricTree, NumBucket, NumTree};
use sd_base::Seq;
use session_frames::time_of;
use std::alloc::{AllocError, Global};
use std::sync::ledger::Ledger;
use value_metric::{KeyedInt, PushedValue};

/// Values, as a report shows them.
struct ValueRows;

impl RowShape for ValueRows {
    ghost use Rattle.atom_record.specs.Equal.{metric_key_exact};

    type Value = i64;

    type Group = MetricKey;

    type Bucket = NumBucket;

    type Tree = NumTree;

    ghost group_of = { λ key value. key };

    ghost exact = { metric_key_exact };

    ghost bucket = { shown_value };

    ghost tree = { key_tree value_entry };

    fn group_of(key: MetricKey, _value: &i64) -> MetricKey {
        key
    }

    fn bucket(_alloc: Global, start: u64, end: u64, value: i64) -> Result<NumBucket, AllocError> {
        Ok(NumBucket { start, end, value })
    }

    fn tree(alloc: Global, group: MetricKey, buckets: Seq<NumBucket>) -> Result<NumTree, AllocError>
        ensures { IfOk result (λ shown. shown ≡ key_tree value_entry group buckets) }
    {
        let MetricKey { dims, slices } = group;
        let leaves = leaves_of(alloc, dims)?;
        Ok(NumTree {
            leaves,
            slices,
            overflow: false,
            buckets,
        })
    }
}

/// The lane of a metric of pushed values that come to one so, which begins at `base`.
pub fn begin(
    alloc: Global,
    base: u64,
    metric: &LMetric,
    aggregation: Aggregation,
) -> Lane<PushedValue>
    requires fits { base < time_limit }
    requires sized { IsSize metric.now.size }
    requires bound { IsBound metric.now.bound }
    ensures { (installed : Installation) (source : ValueLeaf) → installed.base ≡ base
        → metric.now.kind ≡ value_kind_at source aggregation
        → ValuesAlong metric.now installed [] result }
{
    let bound = metric.bound as usize;
    let producer = PushedValue::new(alloc, base, metric.size, bound, aggregation);
    Lane::new(base, metric.size, producer)
}

/// A frame of the log comes.
pub fn log<L: Ledger>(
    lane: &mut Lane<PushedValue>,
    taker: &Taker<'_>,
    brought: &Brought<'_>,
    conditions: &mut Conditions,
    asks: &mut Steps<L>,
) -> Result<(), AllocError>
    requires within { AsksWithin (length conditions.old.predicates) taker.now.metric.now }
    ensures logs { OnOk result (LaneTakes ValuesAlong taker.now
        conditions.old brought.now lane.old lane.new) }
    ensures known { conditions.new ≡ conditions.old }
    ensures asks { LaneAsksFew ValuesAlong taker.now.metric.now
        conditions.old brought.now lane.old asks.old asks.new }
{
    let keyed = arrival(taker.metric, taker.is_active, brought, conditions, asks)?;
    lane.log(time_of(brought.frame), comes_by_pull(brought.frame), keyed)
}

/// A report, and what it shows of the metric.
pub fn report(
    lane: &mut Lane<PushedValue>,
    alloc: Global,
    metric: &LMetric,
    base: u64,
    request: ReportRequest,
) -> Result<MetricTree, AllocError>
    ensures reports { IfOk result (TakesReport (ValuesAlong metric.now)
        metric.now base request lane.old lane.new) }
    ensures writable { IfOk result IsWritableMetric }
{
    let closed = lane.report(request.at, request.include_current)?;
    values_tree(alloc, base, metric, closed)
}

/// A metric of values, pushed or pulled, with what a report shows of it.
pub fn values_tree(
    alloc: Global,
    base: u64,
    metric: &LMetric,
    closed: Closed<i64>,
) -> Result<MetricTree, AllocError>
    ensures { IfOk result (λ tree. tree ≡ values_shown_by base metric.now closed) }
{
    let groups = groups_of::<ValueRows>(alloc, closed.rows)?;
    Ok(MetricTree {
        id: metric.id,
        base,
        size: metric.size,
        dropped: closed.dropped,
        not_kept: closed.not_kept,
        missing: closed.missing,
        body: MetricBody::Values(groups),
    })
}

// The key and the integer that arrive with a frame, if an atom does that has one. The key is made last.
fn arrival<L: Ledger>(
    metric: &LMetric,
    is_active: bool,
    brought: &Brought<'_>,
    conditions: &mut Conditions,
    asks: &mut Steps<L>,
) -> Result<Option<KeyedInt>, AllocError>
    requires within { MayBeWithin (length conditions.old.predicates) metric.now.condition }
    ensures keyed { WhereActive is_active metric.now conditions.old brought.now (λ scene.
        (source : ValueLeaf) (aggregation : Aggregation)
        → metric.now.kind ≡ value_kind_at source aggregation
        → IfOk result (λ keyed. keyed
        ≡ option_map keyed_int (value_arrival_by scene metric.now source (brought_step brought.now)))) }
    ensures known { conditions.new ≡ conditions.old }
    ensures asks { asks.new ≤ asks.old
        + arrival_questions brought.now.frame.now brought.now.matched.now metric.now }
{
    let LKind::PushedValue { atom_id, leaf, .. } = &metric.kind else {
        return Ok(None);
    };
    let Some(atom) = arriving(metric, is_active, brought, conditions, asks)? else {
        return Ok(None);
    };
    let Some(value) = read_integer(*atom_id, *leaf, atom) else {
        return Ok(None);
    };
    let key = key_in(metric, brought, atom)?;
    Ok(Some(KeyedInt { key, value }))
}
