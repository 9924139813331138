//! The watches of a metric's alerts: what each is told of its metric.
ghost use Rattle.std.specs.Prelude.{◌<◌, ◌≤◌, ◌∷◌, [], All, if◌then◌else◌, OnOk, IfOk};
ghost use Rattle.std.specs.Option.{option_copied};
ghost use Rattle.bucket_clock.specs.Clock.{frame_at};
ghost use Rattle.bucket_meaning.specs.Limits.{time_limit};
ghost use Rattle.alert_watch.specs.Windows.{KeyArrived, PartsEnded, AlarmsTold};
ghost use Rattle.metric_meaning.specs.AlertSteps.{ended_notices, arrived_notices, report_notices};
ghost use Rattle.client_engine.specs.Watches.{CanBeWatched, AreNewWatches, AllTakeNotices, TakeEnds};

use alert_watch::AlertWatch;
use atom_record::MetricKey;
use config_links::LAlert;
use count_metric::CountProducer;
use metric_lane::Lane;
use std::alloc::{AllocError, Global};

/// A watch for each alert on the metric at a place, in their order, which was told nothing.
pub fn watches_of(
    alloc: Global,
    alerts: &[LAlert],
    metric: usize,
) -> Result<Vec<AlertWatch>, AllocError>
    requires { All CanBeWatched alerts.now }
    ensures { IfOk result (λ watches. AreNewWatches alerts.now metric watches.items) }
{
    let mut watches = Vec::new(alloc);
    for alert in alerts {
        if alert.metric as usize == metric {
            watches.push(AlertWatch::new(alloc, alert.spec)?)?;
        }
    }
    Ok(watches)
}

/// Tells the watches of a metric how many parts of it end with a frame, before the frame comes to the metric's lane.
#[inline(always)]
pub fn tell_ends(watches: &mut Vec<AlertWatch>, lane: &Lane<CountProducer>, at: u64, is_pull: bool)
    ensures { TakeEnds lane.now.clock (frame_at at is_pull) watches.old.items watches.new.items }
{
    if !watches.is_empty() {
        tell_crossed(watches, lane, at, is_pull);
    }
}

// Tells them so. It is no part of what a metric without alerts runs through.
#[cold]
#[inline(never)]
fn tell_crossed(watches: &mut Vec<AlertWatch>, lane: &Lane<CountProducer>, at: u64, is_pull: bool)
    ensures { TakeEnds lane.now.clock (frame_at at is_pull) watches.old.items watches.new.items }
{
    let ended = lane.ends_crossed(at, is_pull);
    if ended > 0 {
        close_all(watches, ended);
    }
}

// Tells each that so many parts ended.
fn close_all(watches: &mut Vec<AlertWatch>, ended: u64)
    requires { 1 ≤ ended }
    ensures { AllTakeNotices (ended_notices ended) watches.old.items watches.new.items }
{
    for place in 0..watches.len() {
        let watch = &mut watches[place];
        watch.close(ended);
    }
}

/// Tells the watches of a metric the key that arrives, if one does.
#[inline(always)]
pub fn tell_key(
    watches: &mut Vec<AlertWatch>,
    at: u64,
    key: Option<&MetricKey>,
) -> Result<(), AllocError>
    requires in_time { at < time_limit }
    ensures { OnOk result (AllTakeNotices (arrived_notices at (option_copied key.entry))
        watches.old.items watches.new.items) }
{
    match key {
        Some(key) if !watches.is_empty() => tell_arrival(watches, at, key),
        _ => Ok(()),
    }
}

// Tells each that a key arrives.
#[cold]
#[inline(never)]
fn tell_arrival(watches: &mut Vec<AlertWatch>, at: u64, key: &MetricKey) -> Result<(), AllocError>
    requires in_time { at < time_limit }
    ensures { OnOk result (AllTakeNotices (KeyArrived at key.now ∷ []) watches.old.items watches.new.items) }
{
    for place in 0..watches.len() {
        let watch = &mut watches[place];
        watch.arrive(at, key)?;
    }
    Ok(())
}

/// Tells the watches of a metric that a report is made: the end of the part that it cuts, if it does, and that it tells
/// their alarms.
pub fn tell_report(watches: &mut Vec<AlertWatch>, include_current: bool)
    ensures { AllTakeNotices (report_notices include_current) watches.old.items watches.new.items }
{
    tell_cut(watches, include_current);
    tell_alarms(watches);
}

// Tells each that the open part is cut, if it is.
fn tell_cut(watches: &mut Vec<AlertWatch>, include_current: bool)
    ensures { AllTakeNotices (if include_current then PartsEnded 1 ∷ [] else [])
        watches.old.items watches.new.items }
{
    if include_current {
        close_all(watches, 1);
    }
}

// Tells each that its alarms were told.
fn tell_alarms(watches: &mut Vec<AlertWatch>)
    ensures { AllTakeNotices (AlarmsTold ∷ []) watches.old.items watches.new.items }
{
    for place in 0..watches.len() {
        let watch = &mut watches[place];
        let _told = watch.take();
    }
}
