//! Metrics of events.
ghost use Rattle.std.specs.Prelude.{◌≡◌, ◌+◌, ◌≤◌, ◌∷◌, ◌<◌, ◌++◌, [], length, map, All, OnOk, IfOk};
ghost use Rattle.std.specs.List.{flat_map};
ghost use Rattle.bucket_meaning.specs.Limits.{time_limit};
ghost use Rattle.config_links.specs.SoundConfig.{MayBeWithin};
ghost use Rattle.config_links.specs.declared.linked.LKind.TheVariants.{Event};
ghost use Rattle.metric_meaning.specs.Histories.{Installation};
ghost use Rattle.metric_meaning.specs.Arrivals.{arriving_by};
ghost use Rattle.metric_meaning.specs.EventTrees.{event_trees, events_body};
ghost use Rattle.report_writer.specs.Writable.{IsWritableEvent, AreWritableRows, IsWritableMetric};
ghost use Rattle.client_engine.specs.NextSteps.{TakesReport};
ghost use Rattle.client_engine.specs.AskedFew.{LaneAsksFew, arrival_questions};
ghost use Rattle.client_engine.specs.Bringing.{brought_step, WhereActive, LaneTakes};
ghost use Rattle.client_engine.specs.EventsAlong.{EventsAlong, event_at, events_shown_by};
ghost use Rattle.client_engine.specs.Tracks.{AsksWithin};

use crate::arriving::arriving;
use crate::brought::{Brought, Taker};
use crate::moments::comes_by_pull;
use crate::request::ReportRequest;
use atom_record::Atom;
use condition_links::Steps;
use config_links::LMetric;
use gauge_metric::EventProducer;
use known_conditions::Conditions;
use metric_lane::Lane;
use metric_producer::{Closed, Row};
use report_writer::{EventTree, MetricBody, MetricTree, atom_msg};
use sd_base::Seq;
use session_frames::time_of;
use std::alloc::{AllocError, Global};
use std::sync::ledger::Ledger;

/// The lane of a metric of events, which begins at `base`. It has no buckets.
pub fn begin(alloc: Global, base: u64, metric: &LMetric) -> Lane<EventProducer>
    requires fits { base < time_limit }
    requires events { metric.now.kind ≡ Event }
    ensures { (installed : Installation) → installed.base ≡ base
        → EventsAlong metric.now installed [] result }
{
    // The clauses alone speak of the metric: it has no buckets and no bound, so that nothing of it is read here.
    let _metric = metric;
    let producer = EventProducer::new(alloc);
    Lane::new(base, 0, producer)
}

/// A frame of the log comes.
pub fn log<L: Ledger>(
    lane: &mut Lane<EventProducer>,
    taker: &Taker<'_>,
    brought: &Brought<'_>,
    conditions: &mut Conditions,
    asks: &mut Steps<L>,
) -> Result<(), AllocError>
    requires within { AsksWithin (length conditions.old.predicates) taker.now.metric.now }
    ensures logs { OnOk result (LaneTakes EventsAlong taker.now
        conditions.old brought.now lane.old lane.new) }
    ensures known { conditions.new ≡ conditions.old }
    ensures asks { LaneAsksFew EventsAlong taker.now.metric.now
        conditions.old brought.now lane.old asks.old asks.new }
{
    let atom = arrival(taker.metric, taker.is_active, brought, conditions, asks)?;
    lane.log(time_of(brought.frame), comes_by_pull(brought.frame), atom)
}

/// A report, and what it shows of the metric.
pub fn report(
    lane: &mut Lane<EventProducer>,
    alloc: Global,
    metric: &LMetric,
    base: u64,
    request: ReportRequest,
) -> Result<MetricTree, AllocError>
    ensures reports { IfOk result (TakesReport (EventsAlong metric.now)
        metric.now base request lane.old lane.new) }
    ensures writable { IfOk result IsWritableMetric }
{
    let closed = lane.report(request.at, request.include_current)?;
    events_tree(alloc, base, metric, closed)
}

// A metric of events, with what a report shows of it.
fn events_tree(
    alloc: Global,
    base: u64,
    metric: &LMetric,
    closed: Closed<Seq<Atom>>,
) -> Result<MetricTree, AllocError>
    ensures shown { IfOk result (λ tree. tree ≡ events_shown_by base metric.now closed) }
    ensures writable { IfOk result IsWritableMetric }
{
    let body = events_body(alloc, closed.rows)?;
    Ok(MetricTree {
        id: metric.id,
        base,
        size: metric.size,
        dropped: closed.dropped,
        not_kept: closed.not_kept,
        missing: closed.missing,
        body,
    })
}

// The rows of events, one by one, with the messages of their atoms.
fn events_body(alloc: Global, rows: Seq<Row<Seq<Atom>>>) -> Result<MetricBody, AllocError>
    ensures shown { IfOk result (λ body. body ≡ events_body rows) }
    ensures writable { IfOk result AreWritableRows }
{
    let events = events_of(alloc, rows.as_slice())?;
    Ok(MetricBody::Events(events))
}

// The messages of the atoms of these rows, one by one, each with the time of its row.
fn events_of(alloc: Global, rows: &[Row<Seq<Atom>>]) -> Result<Seq<EventTree>, AllocError>
    ensures shown { IfOk result (λ events. events ≡ flat_map event_trees rows.now) }
    ensures writable { IfOk result (All IsWritableEvent) }
{
    // An event is a row of one atom.
    let mut events = Seq::with_capacity(alloc, rows.len())?;
    for row in rows {
        add_events(alloc, &mut events, row.start, row.value.as_slice())?;
    }
    Ok(events)
}

// Adds the messages of the atoms of one row.
fn add_events(
    alloc: Global,
    events: &mut Seq<EventTree>,
    at: u64,
    atoms: &[Atom],
) -> Result<(), AllocError>
    requires writable { All IsWritableEvent events.old }
    ensures shown { OnOk result (events.new ≡ events.old ++ map (event_at at) atoms.now) }
    ensures writable { OnOk result (All IsWritableEvent events.new) }
{
    for atom in atoms {
        let atom = atom_msg(alloc, atom)?;
        events.push(EventTree { at, atom })?;
    }
    Ok(())
}

// A copy of the atom that arrives with a frame, if one does.
fn arrival<L: Ledger>(
    metric: &LMetric,
    is_active: bool,
    brought: &Brought<'_>,
    conditions: &mut Conditions,
    asks: &mut Steps<L>,
) -> Result<Option<Atom>, AllocError>
    requires within { MayBeWithin (length conditions.old.predicates) metric.now.condition }
    ensures atom { WhereActive is_active metric.now conditions.old brought.now (λ scene.
        IfOk result (λ atom. atom ≡ arriving_by scene metric.now (brought_step brought.now))) }
    ensures known { conditions.new ≡ conditions.old }
    ensures asks { asks.new ≤ asks.old
        + arrival_questions brought.now.frame.now brought.now.matched.now metric.now }
{
    let Some(atom) = arriving(metric, is_active, brought, conditions, asks)? else {
        return Ok(None);
    };
    Ok(Some(atom.clone_atom(brought.alloc)?))
}
