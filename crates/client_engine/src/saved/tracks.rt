//! What metrics have, saved without the metrics and put together with them again.
ghost use Rattle.std.specs.Prelude.{◌≡◌, ◌++◌, length, map, All, IfOk, OnOk, OnErr};
ghost use Rattle.std.specs.List.{flat_map};
ghost use Rattle.flat_form.specs.Flat.{IsFront, list_items};
ghost use Rattle.client_engine.specs.SavedInstances.{held_in, track_items, IsSavedTrack};
ghost use Rattle.client_engine.specs.Tracks.{metric_in};

use crate::lanes::MetricLane;
use crate::track::Track;
use config_links::LMetric;
use flat_form::{Flat, Item, Items};
use metric_activation::ActBook;
use sd_base::Seq;
use std::alloc::{AllocError, Global};

/// What each of these has is valid.
pub fn show_tracks(tracks: &[Track])
    ensures { All IsSavedTrack tracks.now }
{
    for track in tracks {
        track.lane.show_valid();
        track.acts.show_valid();
    }
}

/// Adds the number of these, and the items of what each has.
pub fn flatten_tracks(tracks: &[Track], alloc: Global, out: &mut Items) -> Result<(), AllocError>
    ensures added { OnOk result (out.new ≡ out.old ++ list_items track_items tracks.now) }
    ensures err { OnErr result (IsFront out.old out.new) }
{
    out.push(Item::Num(tracks.len() as u64))?;
    flatten_each(tracks, alloc, out)
}

// Adds the items of what each has, one after the other.
fn flatten_each(tracks: &[Track], alloc: Global, out: &mut Items) -> Result<(), AllocError>
    ensures added { OnOk result (out.new ≡ out.old ++ flat_map track_items tracks.now) }
    ensures err { OnErr result (IsFront out.old out.new) }
{
    for track in tracks {
        flatten_track(track, alloc, out)?;
    }
    Ok(())
}

// Adds the items of what one has.
fn flatten_track(track: &Track, alloc: Global, out: &mut Items) -> Result<(), AllocError>
    ensures added { OnOk result (out.new ≡ out.old ++ track_items track.now) }
    ensures err { OnErr result (IsFront out.old out.new) }
{
    track.lane.flatten(alloc, out)?;
    track.acts.flatten(alloc, out)
}

/// The tracks of these metrics that have this, each the one at its place.
pub fn tracks_with(
    alloc: Global,
    metrics: Seq<LMetric>,
    held: Seq<(MetricLane, ActBook)>,
) -> Result<Vec<Track>, AllocError>
    requires { length metrics ≡ length held }
    ensures metrics { IfOk result (λ tracks. map metric_in tracks.items ≡ metrics) }
    ensures held { IfOk result (λ tracks. map held_in tracks.items ≡ held) }
{
    let mut tracks = Vec::new(alloc);
    let mut rest = held.into_vec().into_iter();
    for metric in metrics.into_vec() {
        let Some((lane, acts)) = rest.next() else {
            return Ok(tracks);
        };
        tracks.push(Track { metric, lane, acts })?;
    }
    Ok(tracks)
}
