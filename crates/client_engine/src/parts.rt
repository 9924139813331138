//! What an instance does with each of its parts.
ghost use Rattle.std.specs.Prelude.{◌≡◌, [], ◌∷◌, ◌++◌, length, map, if◌then◌else◌, OnOk, IfOk};
ghost use Rattle.std.specs.List.{All};
ghost use Rattle.bucket_clock.specs.Clock.{frame_at};
ghost use Rattle.client_engine.specs.AskedFew.{AllAskFew};
ghost use Rattle.client_engine.specs.Bringing.{TakesBrought};
ghost use Rattle.client_engine.specs.CaughtUp.{AllTakeRun};
ghost use Rattle.client_engine.specs.Finding.{CanBeBrought};
ghost use Rattle.client_engine.specs.Opens.{CanOpen};
ghost use Rattle.client_engine.specs.Tracks.{CanBeTracked, metric_in, AsksWithin, AllAskWithin, AreNew, AllStandFor, AllReport};
ghost use Rattle.client_engine.specs.InstanceParts.{tree_with};

use crate::alarms::AlarmsShown;
use crate::brought::Brought;
use crate::opening::Opening;
use crate::request::ReportRequest;
use crate::track::Track;
use condition_links::Steps;
use config_links::LMetric;
use known_conditions::Conditions;
use report_writer::{Drop64, MetricTree, ReportTree};
use sd_base::Seq;
use std::alloc::{AllocError, Global};
use std::sync::ledger::Ledger;

/// What a report shows beside its metrics: what found no room.
#[derive(Drop)]
pub struct Drops {
    pub of_predicates: Seq<Drop64>,
    pub of_states: Seq<Drop64>,
    pub of_atoms: u64,
}

/// The tracks of metrics, which begin where they are installed.
pub fn tracks_of(
    metrics: Seq<LMetric>,
    opening: &Opening<'_>,
    conditions: &mut Conditions,
) -> Result<Vec<Track>, AllocError>
    requires opens { CanOpen opening.now }
    requires ready { All CanBeTracked metrics }
    requires within { All (AsksWithin (length conditions.old.predicates)) metrics }
    ensures new { IfOk result (λ tracks. AreNew opening.now conditions.old metrics tracks.items) }
    ensures known { conditions.new ≡ conditions.old }
{
    let mut tracks = Vec::new(opening.alloc);
    for metric in metrics.into_vec() {
        let place = tracks.len();
        tracks.push(Track::new(metric, place, opening, conditions)?)?;
    }
    Ok(tracks)
}

/// A frame of the log comes to each of these.
pub fn log_all<L: Ledger>(
    conditions: &mut Conditions,
    tracks: &mut Vec<Track>,
    brought: &Brought<'_>,
    asks: &mut Steps<L>,
) -> Result<(), AllocError>
    requires within { AllAskWithin conditions.old tracks.old.items }
    requires matched { CanBeBrought brought.now }
    ensures logs { OnOk result (TakesBrought AllStandFor
        conditions.old brought.now tracks.old.items tracks.new.items) }
    ensures metrics { map metric_in tracks.new.items ≡ map metric_in tracks.old.items }
    ensures known { conditions.new ≡ conditions.old }
    ensures asks { AllAskFew conditions.old brought.now tracks.old.items asks.old asks.new }
{
    for track in tracks.iter_mut() {
        track.log(brought, conditions, asks)?;
    }
    Ok(())
}

/// The one frame comes to each of these that stands for a run which leaves them alone.
pub fn cross_all(tracks: &mut Vec<Track>, at: u64, is_pull: bool) -> Result<(), AllocError>
    ensures takes { OnOk result (AllTakeRun (frame_at at is_pull) tracks.old.items tracks.new.items) }
    ensures metrics { map metric_in tracks.new.items ≡ map metric_in tracks.old.items }
{
    for track in tracks.iter_mut() {
        track.cross(at, is_pull)?;
    }
    Ok(())
}

/// What a report shows of each of these that is shown, in order.
pub fn report_all(
    alloc: Global,
    base: u64,
    tracks: &mut Vec<Track>,
    request: ReportRequest,
) -> Result<Seq<MetricTree>, AllocError>
    ensures reports { IfOk result
        (AllReport base request tracks.old.items tracks.new.items) }
    ensures metrics { map metric_in tracks.new.items ≡ map metric_in tracks.old.items }
{
    let mut trees = Seq::new(alloc);
    for track in tracks.iter_mut() {
        let is_shown = track.metric.shown;
        let tree = track.report(alloc, base, request)?;
        show(&mut trees, tree, is_shown)?;
    }
    Ok(trees)
}

// Adds a metric's tree if it is shown.
fn show(trees: &mut Seq<MetricTree>, tree: MetricTree, is_shown: bool) -> Result<(), AllocError>
    ensures { OnOk result (trees.new ≡ trees.old ++ (if is_shown then tree ∷ [] else [])) }
{
    if is_shown {
        trees.push(tree)?;
    }
    Ok(())
}

/// The tree of a report, with what it shows of metrics, predicates, states and alerts.
pub fn tree_of(
    request: ReportRequest,
    last: u64,
    metrics: Seq<MetricTree>,
    drops: Drops,
    alarms: AlarmsShown,
) -> ReportTree
    ensures { result ≡ tree_with request last metrics drops alarms }
{
    ReportTree {
        uid: request.name.uid,
        id: request.name.id,
        last,
        now: request.at,
        metrics,
        predicate_drops: drops.of_predicates,
        state_drops: drops.of_states,
        state_atoms_dropped: drops.of_atoms,
        alarms: alarms.listed,
        alarms_not_kept: alarms.not_kept,
    }
}
