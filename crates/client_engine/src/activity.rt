//! What atoms say of a metric's activations.
ghost use Rattle.std.specs.Prelude.{◌≡◌, ◌<◌, false, [], length, map, slice_get, IfOk};
ghost use Rattle.std.specs.Option.{option_map_or};
ghost use Rattle.bucket_meaning.specs.Limits.{time_limit};
ghost use Rattle.session_frames.specs.FrameReading.{log_time};
ghost use Rattle.metric_activation.specs.Timers.{ttls_of, heard_of, HearsAtom};
ghost use Rattle.client_engine.specs.Activity.{starts_by, cancels_by, timers_of, ActsAlong, TellsFrame, SaysActive};
ghost use Rattle.client_engine.specs.Tracks.{CanBeTracked};

use crate::brought::Brought;
use atom_record::LogFrame;
use config_links::{LActivation, LMetric};
use known_conditions::{is_true_at, is_true_if_named};
use metric_activation::{ActBook, MAX_ACTIVATIONS, Timer};
use sd_base::Seq;
use session_frames::time_of;
use std::alloc::{AllocError, Global};

/// The book of a metric's activations, none of which was started.
pub fn book_of(alloc: Global, metric: &LMetric) -> Result<ActBook, AllocError>
    requires tracked { CanBeTracked metric.now }
    ensures { IfOk result (ActsAlong metric.now []) }
{
    let timers = idle_timers(alloc, metric.activations.as_slice())?;
    Ok(ActBook::new(timers))
}

// A timer for each activation, none of which was started.
fn idle_timers(alloc: Global, activations: &[LActivation]) -> Result<Seq<Timer>, AllocError>
    ensures { IfOk result (λ timers. timers ≡ timers_of activations.now) }
{
    let mut timers = Seq::new(alloc);
    for activation in activations {
        timers.push(Timer::new(activation.ttl))?;
    }
    Ok(timers)
}

/// Tells the book of a metric's activations what a frame of the log says of them, and asks it whether the metric is
/// active then. A metric without activations is, and its book is neither told nor asked.
#[inline]
pub fn hear(acts: &mut ActBook, metric: &LMetric, brought: &Brought<'_>) -> bool
    ensures told { TellsFrame metric.now brought.now.frame.now brought.now.matched.now acts.old acts.new }
    ensures active { SaysActive metric.now acts.new (log_time brought.now.frame.now) result }
{
    if metric.activations.is_empty() {
        return true;
    }
    hear_of(acts, metric, brought)
}

// Tells and asks the book, whether or not there are activations.
#[inline(never)]
fn hear_of(acts: &mut ActBook, metric: &LMetric, brought: &Brought<'_>) -> bool
    ensures told { TellsFrame metric.now brought.now.frame.now brought.now.matched.now acts.old acts.new }
    ensures active { SaysActive metric.now acts.new (log_time brought.now.frame.now) result }
{
    tell(acts, metric, brought);
    acts.active(time_of(brought.frame))
}

// Tells the book what the frame says: nothing, unless it is an atom.
#[inline]
fn tell(acts: &mut ActBook, metric: &LMetric, brought: &Brought<'_>)
    ensures { TellsFrame metric.now brought.now.frame.now brought.now.matched.now acts.old acts.new }
{
    match brought.frame {
        LogFrame::AtomAt { at, .. } => {
            tell_atom(acts, metric.activations.as_slice(), brought.matched, *at)
        }
        LogFrame::Tick { .. } | LogFrame::Pull { .. } => (),
    }
}

// Tells the book what an atom with these truths says of each activation.
fn tell_atom(acts: &mut ActBook, activations: &[LActivation], matched: &[bool], at: u64)
    ensures ttls { ttls_of acts.new ≡ ttls_of acts.old }
    ensures stands { at < time_limit → length acts.old ≡ length activations.now
        → HearsAtom acts.old acts.new (heard_of at (map (starts_by matched.now) activations.now)
        (map (cancels_by matched.now) activations.now)) }
{
    let mut started = [false; MAX_ACTIVATIONS];
    let mut cancelled = [false; MAX_ACTIVATIONS];
    for place in 0..MAX_ACTIVATIONS {
        started[place] = starts_at(activations, matched, place);
        cancelled[place] = cancels_at(activations, matched, place);
    }
    let count = acts.timers().len();
    acts.apply(at, &started[..count], &cancelled[..count]);
}

// Whether an atom with these truths starts the activation at a place, if there is one.
fn starts_at(activations: &[LActivation], matched: &[bool], place: usize) -> bool
    ensures { result ≡ option_map_or (starts_by matched.now) (slice_get activations.now place) false }
{
    match activations.get(place) {
        Some(activation) => is_true_at(matched, activation.start),
        None => false,
    }
}

// Whether it cancels it.
fn cancels_at(activations: &[LActivation], matched: &[bool], place: usize) -> bool
    ensures { result ≡ option_map_or (cancels_by matched.now) (slice_get activations.now place) false }
{
    match activations.get(place) {
        Some(activation) => is_true_if_named(matched, activation.cancel),
        None => false,
    }
}
