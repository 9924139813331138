//! What a report shows of a configuration's alerts.
ghost use Rattle.std.specs.Prelude.{◌≡◌, ◌<◌, ◌++◌, length, map, OnOk, IfOk};
ghost use Rattle.std.specs.Option.{option_copied};
ghost use Rattle.metric_meaning.specs.AlarmTrees.{alarm_tree, drops_shown};
ghost use Rattle.client_engine.specs.Alarms.{AddsAlarms, AreAlarmsOf, ShowsAlert, untold_of, watch_at};
ghost use Rattle.client_engine.specs.Watches.{alerts_at};

use crate::leaves::leaves_of;
use crate::track::Track;
use alert_watch::{Alarm, AlertWatch};
use atom_record::MetricKey;
use config_links::LAlert;
use report_writer::{AlarmTree, Drop64};
use sd_base::{Duplicate, Seq};
use std::alloc::{AllocError, Global};

/// The alarms that a report lists, and how many of each alert it doesn't.
#[derive(Drop)]
pub struct AlarmsShown {
    pub listed: Seq<AlarmTree>,
    pub not_kept: Seq<Drop64>,
}

/// What a report shows of these alerts, in their order, whose metrics have these tracks.
pub fn alarms_of(
    alloc: Global,
    alerts: &[LAlert],
    tracks: &[Track],
) -> Result<AlarmsShown, AllocError>
    ensures { IfOk result (AreAlarmsOf alerts.now tracks.now) }
{
    let mut shown = AlarmsShown {
        listed: Seq::new(alloc),
        not_kept: Seq::new(alloc),
    };
    for place in 0..alerts.len() {
        show_at(alloc, alerts, place, tracks, &mut shown)?;
    }
    Ok(shown)
}

// Adds the alarms of the alert at a place.
fn show_at(
    alloc: Global,
    alerts: &[LAlert],
    place: usize,
    tracks: &[Track],
    shown: &mut AlarmsShown,
) -> Result<(), AllocError>
    ensures { OnOk result (ShowsAlert alerts.now place tracks.now shown.old shown.new) }
{
    match alerts.get(place) {
        Some(alert) => {
            let watch = watch_of(alerts, place, tracks);
            show_watch(alloc, alert, watch, shown)
        }
        None => Ok(()),
    }
}

// The watch of the alert at a place, which stands with its metric.
fn watch_of<'t>(alerts: &[LAlert], place: usize, tracks: &'t [Track]) -> Option<&'t AlertWatch>
    requires within { place < length alerts.now }
    ensures { option_copied result ≡ watch_at alerts.now place tracks.now }
{
    let metric = alerts[place].metric;
    let track = tracks.get(metric as usize)?;
    track.watch(count_on(&alerts[..place], metric))
}

// How many of these alerts are on a metric.
fn count_on(alerts: &[LAlert], metric: u32) -> usize
    ensures { result ≡ length (alerts_at metric alerts.now) }
{
    let mut count = 0;
    for place in 0..alerts.len() {
        if alerts[place].metric == metric {
            count += 1;
        }
    }
    count
}

// Adds the alarms of an alert, if it has a watch.
fn show_watch(
    alloc: Global,
    alert: &LAlert,
    watch: Option<&AlertWatch>,
    shown: &mut AlarmsShown,
) -> Result<(), AllocError>
    ensures { OnOk result (AddsAlarms alert.now (untold_of (option_copied watch.entry)) shown.old shown.new) }
{
    match watch {
        Some(watch) => show(alloc, alert, watch.listed(), watch.not_kept(), shown),
        None => Ok(()),
    }
}

// Adds alarms of an alert.
fn show(
    alloc: Global,
    alert: &LAlert,
    listed: &[Alarm],
    not_kept: u64,
    shown: &mut AlarmsShown,
) -> Result<(), AllocError>
    ensures { OnOk result (AddsAlarms alert.now (record { listed = listed.now; not_kept = not_kept })
        shown.old shown.new) }
{
    list(alloc, alert, listed, &mut shown.listed)?;
    count(alert, not_kept, &mut shown.not_kept)
}

// Adds those that are listed.
fn list(
    alloc: Global,
    alert: &LAlert,
    alarms: &[Alarm],
    trees: &mut Seq<AlarmTree>,
) -> Result<(), AllocError>
    ensures { OnOk result (trees.new ≡ trees.old ++ map (alarm_tree alert.now.id) alarms.now) }
{
    for place in 0..alarms.len() {
        trees.push(tree_of(alloc, alert, &alarms[place])?)?;
    }
    Ok(())
}

// Adds how many aren't, where there are such.
fn count(alert: &LAlert, number: u64, drops: &mut Seq<Drop64>) -> Result<(), AllocError>
    ensures { OnOk result (drops.new ≡ drops.old ++ drops_shown alert.now.id number) }
{
    if number == 0 {
        return Ok(());
    }
    drops.push(Drop64 {
        id: alert.id,
        number,
    })
}

// An alarm as a report shows it.
fn tree_of(alloc: Global, alert: &LAlert, alarm: &Alarm) -> Result<AlarmTree, AllocError>
    ensures { IfOk result (λ tree. tree ≡ alarm_tree alert.now.id alarm.now) }
{
    let MetricKey { dims, slices } = alarm.key.duplicate(alloc)?;
    Ok(AlarmTree {
        id: alert.id,
        at: alarm.at,
        sum: alarm.sum,
        leaves: leaves_of(alloc, dims)?,
        slices,
    })
}
