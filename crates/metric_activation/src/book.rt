//! The activations of one metric, with one number for each beside its ttl.
ghost use Rattle.std.specs.Prelude.{◌≡◌, ℕ, ◌<◌, ◌↔◌, All, List, [], length, map, MatchOption, IsTrue};
ghost use Rattle.std.specs.List.{list_any};
ghost use Rattle.bucket_meaning.specs.Limits.{time_limit};
ghost use Rattle.metric_activation.specs.Activations.{Heard, is_active_told};
ghost use Rattle.metric_activation.specs.Timers.{AreTimers, IsTimer, IsIdle, ttls_of, heard_of, lives, AreToldBelow, BookStandsFor, HearsAtom};

use crate::Timer;
use sd_base::Seq;
use std::marker::Model;

/// The most activations of one metric.
pub const MAX_ACTIVATIONS: usize = 8;

/// The longest time that one start lasts, in nanoseconds.
pub const MAX_TTL: u64 = 1_000_000_000_000_000;

/// The activations of one metric. A metric without activations is always active.
#[derive(Drop)]
pub struct ActBook {
    timers: Vec<Timer>,
}

impl Model for ActBook {
    ghost use Rattle.std.specs.Prelude.{List};
    ghost use Rattle.metric_activation.specs.declared.timer.Timer.{Timer};
    ghost use Rattle.metric_activation.specs.Timers.{AreTimers};

    ghost Value = { List Timer };

    ghost view = { λ book. book.timers.items };

    ghost invariant = { λ book. AreTimers book.timers.items };
}

impl ActBook {
    /// The book of a metric with these activations, none of which was started.
    pub fn new(timers: Seq<Timer>) -> ActBook
        requires sound { AreTimers timers }
        requires idle { All IsIdle timers }
        ensures timers { result ≡ timers }
        ensures stands { BookStandsFor result [] }
    {
        ActBook {
            timers: timers.into_vec(),
        }
    }

    /// The book with these activations, or none where no book has them.
    pub fn restore(timers: Seq<Timer>) -> Option<ActBook>
        ensures { MatchOption result (¬ (AreTimers timers)) (λ book. (book ≡ timers) × AreTimers timers) }
    {
        if timers.len() > MAX_ACTIVATIONS || !are_sound(timers.as_slice()) {
            return None;
        }
        Some(ActBook {
            timers: timers.into_vec(),
        })
    }

    /// One atom came, which started these activations and cancelled those. Times are below 2^63 nanoseconds.
    pub fn apply(&mut self, at: u64, started: &[bool], cancelled: &[bool])
        requires started { length started.now ≡ length self.old }
        requires cancelled { length cancelled.now ≡ length self.old }
        ensures ttls { ttls_of self.new ≡ ttls_of self.old }
        ensures stands { at < time_limit
            → HearsAtom self.old self.new (heard_of at started.now cancelled.now) }
    {
        tell_all(&mut self.timers, at, started, cancelled);
    }

    /// Whether one of the activations lives at a time, or there is none.
    pub fn active(&self, at: u64) -> bool
        ensures { (told : List Heard) → BookStandsFor self.now told
            → result ≡ is_active_told (ttls_of self.now) told at }
    {
        let timers = self.timers();
        timers.is_empty() || lives_one(timers, at)
    }

    /// The activations, with their ends.
    pub fn timers(&self) -> &[Timer]
        ensures value { result.now ≡ self.now }
        ensures sound { AreTimers self.now }
    {
        self.timers.as_slice()
    }
}

// Whether each start lasts no longer than it may.
fn are_sound(timers: &[Timer]) -> bool
    ensures { IsTrue result ↔ All IsTimer timers.now }
{
    timers
        .iter()
        .all(|timer| 1 <= timer.ttl && timer.ttl <= MAX_TTL)
}

// Whether one of these is alive.
fn lives_one(timers: &[Timer], at: u64) -> bool
    ensures { result ≡ list_any (lives at) timers.now }
{
    timers.iter().any(|timer| at < timer.end)
}

// What an atom makes of each.
fn tell_all(timers: &mut Vec<Timer>, at: u64, started: &[bool], cancelled: &[bool])
    requires sound { All IsTimer timers.old.items }
    requires started { length started.now ≡ length timers.old.items }
    requires cancelled { length cancelled.now ≡ length timers.old.items }
    ensures len { length timers.new.items ≡ length timers.old.items }
    ensures told { at < time_limit → AreToldBelow (length timers.old.items) at started.now cancelled.now
        timers.old.items timers.new.items }
    ensures sound { All IsTimer timers.new.items }
    ensures ttls { ttls_of timers.new.items ≡ ttls_of timers.old.items }
{
    for place in 0..timers.len() {
        let timer = timers[place];
        timers[place] = timer.told(at, started[place], cancelled[place]);
    }
}
