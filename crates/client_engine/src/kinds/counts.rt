//! Metrics that count.
ghost use Rattle.std.specs.Prelude.{◌≡◌, ◌+◌, ◌≤◌, ◌∷◌, ◌<◌, [], length, slice_get, OnOk, IfOk};
ghost use Rattle.std.specs.Option.{option_copied};
ghost use Rattle.bucket_clock.specs.Clock.{frame_at};
ghost use Rattle.bucket_meaning.specs.Limits.{time_limit};
ghost use Rattle.config_links.specs.declared.linked.LKind.TheVariants.{Count};
ghost use Rattle.config_links.specs.SoundConfig.{IsSize, IsBound};
ghost use Rattle.metric_meaning.specs.Histories.{Installation};
ghost use Rattle.metric_meaning.specs.CountSteps.{arrival_by};
ghost use Rattle.metric_meaning.specs.CountTrees.{count_tree};
ghost use Rattle.count_metric.specs.CountStands.{count_law};
ghost use Rattle.metric_lane.specs.LaneClock.{NoEndBefore};
ghost use Rattle.report_writer.specs.Writable.{IsWritableMetric};
ghost use Rattle.client_engine.specs.NextSteps.{TakesReport};
ghost use Rattle.client_engine.specs.AskedFew.{LaneAsksFew, arrival_questions};
ghost use Rattle.client_engine.specs.Bringing.{brought_step, WhereActive, LaneTakes};
ghost use Rattle.client_engine.specs.CountsAlong.{CountsAlong, CrossesWatched, counts_shown_by, shown_count, shown_group};
ghost use Rattle.client_engine.specs.Finding.{CanBeBrought};
ghost use Rattle.client_engine.specs.Watches.{WatchesAlong};
ghost use Rattle.client_engine.specs.Tracks.{AsksWithin};

mod saved;

use crate::arriving::{arriving, metric_key_into};
use crate::brought::{Brought, Taker};
use crate::groups::{RowShape, groups_of};
use crate::leaves::leaves_of;
use crate::moments::comes_by_pull;
use crate::request::ReportRequest;
use crate::watches::{tell_ends, tell_key, tell_report};
use alert_watch::AlertWatch;
use atom_record::MetricKey;
use condition_links::Steps;
use config_links::LMetric;
use count_metric::{CountCell, CountProducer};
use known_conditions::{Conditions, KeyRoom};
use metric_lane::Lane;
use metric_producer::Closed;
use report_writer::{MetricBody, MetricTree, NumBucket, NumTree};
use sd_base::Seq;
use session_frames::time_of;
use std::alloc::{AllocError, Global};
use std::marker::Model;
use std::sync::ledger::Ledger;

/// The greatest count or time that a report shows.
pub const MOST_SHOWN: u64 = (1 << 63) - 1;

/// Counts, as a report shows them. The overflow rows are a group beside the rows of the empty key.
struct CountRows;

impl RowShape for CountRows {
    ghost use Rattle.client_engine.specs.CountGroups.{group_exact};

    type Value = CountCell;

    type Group = (MetricKey, bool);

    type Bucket = NumBucket;

    type Tree = NumTree;

    ghost group_of = { shown_group };

    ghost exact = { group_exact };

    ghost bucket = { shown_count };

    ghost tree = { count_tree };

    fn group_of(key: MetricKey, value: &CountCell) -> (MetricKey, bool) {
        (key, value.overflow)
    }

    fn bucket(
        _alloc: Global,
        start: u64,
        end: u64,
        value: CountCell,
    ) -> Result<NumBucket, AllocError> {
        Ok(NumBucket {
            start,
            end,
            value: value.number.min(MOST_SHOWN) as i64,
        })
    }

    fn tree(
        alloc: Global,
        group: (MetricKey, bool),
        buckets: Seq<NumBucket>,
    ) -> Result<NumTree, AllocError>
        ensures { IfOk result (λ shown. shown ≡ count_tree group buckets) }
    {
        let (MetricKey { dims, slices }, overflow) = group;
        let leaves = leaves_of(alloc, dims)?;
        Ok(NumTree {
            leaves,
            slices,
            overflow,
            buckets,
        })
    }
}

/// A lane of counts, the watches of its metric's alerts, and the room in which the keys that arrive are made.
#[derive(Drop)]
pub struct CountLane {
    lane: Lane<CountProducer>,
    watches: Vec<AlertWatch>,
    /// Nothing of the key that arrived last is read again.
    room: KeyRoom,
}

impl Model for CountLane {
    ghost use Rattle.client_engine.specs.CountsAlong as along;

    ghost Value = { along.WatchedLane };

    ghost view = { λ it. record { lane = it.lane; watches = it.watches.items } };
}

impl CountLane {
    /// A time before which no bucket ends. A frame before it that brings nothing leaves the lane as it is.
    pub fn next_end(&self) -> u64
        ensures { NoEndBefore result self.now.lane.clock }
    {
        self.lane.next_end()
    }

    /// The one frame comes that stands for a run which brings nothing: hands on what it crosses.
    pub fn cross(&mut self, at: u64, is_pull: bool) -> Result<(), AllocError>
        ensures { OnOk result (CrossesWatched (frame_at at is_pull) self.old self.new) }
    {
        tell_ends(&mut self.watches, &self.lane, at, is_pull);
        self.lane.cross(at, is_pull)
    }

    /// The watch of the alert that has this turn among those on the metric, if there are so many.
    pub fn watch(&self, turn: usize) -> Option<&AlertWatch>
        ensures { option_copied result ≡ slice_get self.now.watches turn }
    {
        self.watches.get(turn)
    }
}

/// The lane of a metric that counts, with overflow rows or without, which begins at `base`, with the watches of its
/// alerts.
pub fn begin(
    alloc: Global,
    base: u64,
    metric: &LMetric,
    overflow: bool,
    watches: Vec<AlertWatch>,
) -> CountLane
    requires fits { base < time_limit }
    requires counts { metric.now.kind ≡ Count overflow }
    requires sized { IsSize metric.now.size }
    requires bound { IsBound metric.now.bound }
    ensures { (installed : Installation) → installed.base ≡ base
        → WatchesAlong metric.now installed [] watches.items → CountsAlong metric.now installed [] result }
{
    let bound = metric.bound as usize;
    let producer = CountProducer::new(alloc, base, metric.size, bound, overflow);
    CountLane {
        lane: Lane::new(base, metric.size, producer),
        watches,
        room: KeyRoom::new(alloc),
    }
}

/// A frame of the log comes.
pub fn log<L: Ledger>(
    lane: &mut CountLane,
    taker: &Taker<'_>,
    brought: &Brought<'_>,
    conditions: &mut Conditions,
    asks: &mut Steps<L>,
) -> Result<(), AllocError>
    requires within { AsksWithin (length conditions.old.predicates) taker.now.metric.now }
    requires matched { CanBeBrought brought.now }
    ensures logs { OnOk result (LaneTakes CountsAlong taker.now
        conditions.old brought.now lane.old lane.new) }
    ensures known { conditions.new ≡ conditions.old }
    ensures asks { LaneAsksFew CountsAlong taker.now.metric.now
        conditions.old brought.now lane.old asks.old asks.new }
{
    let CountLane {
        lane,
        watches,
        room,
    } = lane;
    let key = arrival(taker, brought, conditions, asks, room)?;
    let at = time_of(brought.frame);
    let is_pull = comes_by_pull(brought.frame);
    tell_ends(watches, lane, at, is_pull);
    tell_key(watches, at, key)?;
    lane.log_of(at, is_pull, key)
}

/// A report, and what it shows of the metric.
pub fn report(
    lane: &mut CountLane,
    alloc: Global,
    metric: &LMetric,
    base: u64,
    request: ReportRequest,
) -> Result<MetricTree, AllocError>
    ensures reports { IfOk result (TakesReport (CountsAlong metric.now)
        metric.now base request lane.old lane.new) }
    ensures writable { IfOk result IsWritableMetric }
{
    let closed = lane.lane.report(request.at, request.include_current)?;
    tell_report(&mut lane.watches, request.include_current);
    counts_tree(alloc, base, metric, closed)
}

// A metric of counts, with what a report shows of it.
fn counts_tree(
    alloc: Global,
    base: u64,
    metric: &LMetric,
    closed: Closed<CountCell>,
) -> Result<MetricTree, AllocError>
    ensures { IfOk result (λ tree. tree ≡ counts_shown_by base metric.now closed) }
{
    let groups = groups_of::<CountRows>(alloc, closed.rows)?;
    Ok(MetricTree {
        id: metric.id,
        base,
        size: metric.size,
        dropped: closed.dropped,
        not_kept: closed.not_kept,
        missing: closed.missing,
        body: MetricBody::Counts(groups),
    })
}

// The key that arrives with a frame, if an atom does. It is made in the room of another.
fn arrival<'k, L: Ledger>(
    taker: &Taker<'_>,
    brought: &Brought<'_>,
    conditions: &mut Conditions,
    asks: &mut Steps<L>,
    room: &'k mut KeyRoom,
) -> Result<Option<&'k MetricKey>, AllocError>
    requires within { AsksWithin (length conditions.old.predicates) taker.now.metric.now }
    ensures key { WhereActive taker.now.is_active taker.now.metric.now
        conditions.old brought.now (λ scene. IfOk result (λ key. option_copied key
        ≡ arrival_by scene taker.now.metric.now (brought_step brought.now))) }
    ensures known { conditions.new ≡ conditions.old }
    ensures asks { asks.new ≤ asks.old
        + arrival_questions brought.now.frame.now brought.now.matched.now taker.now.metric.now }
{
    let Some(atom) = arriving(taker.metric, taker.is_active, brought, conditions, asks)? else {
        return Ok(None);
    };
    metric_key_into(taker.metric, brought, atom, room)?;
    Ok(Some(&room.key))
}
