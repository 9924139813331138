//! What is kept of one activation.
ghost use Rattle.std.specs.Prelude.{◌≡◌, ◌<◌, ◌≤◌};
ghost use Rattle.bucket_meaning.specs.Limits.{time_limit};
ghost use Rattle.metric_activation.specs.Activations.{most_ttl};
ghost use Rattle.metric_activation.specs.Timers.{timer_told, idle};

/// How long one start keeps an activation alive, and when it ends. Times are in nanoseconds.
#[derive(Clone, Copy, PartialEq, Eq)]
pub struct Timer {
    /// How long one start lasts.
    pub ttl: u64,
    /// It is alive at all times below this one. Where it isn't alive this is 0.
    pub end: u64,
}

impl Timer {
    /// An activation that nothing started.
    pub fn new(ttl: u64) -> Timer
        ensures { result ≡ idle ttl }
    {
        Timer { ttl, end: 0 }
    }

    // What an atom makes of it. One that starts and cancels it cancels it.
    pub(crate) fn told(self, at: u64, starts: bool, cancels: bool) -> Timer
        requires short { self.ttl ≤ most_ttl }
        ensures ttl { result.ttl ≡ self.ttl }
        ensures told { at < time_limit → result ≡ timer_told at starts cancels self }
    {
        let end = if cancels {
            0
        } else if starts {
            at.saturating_add(self.ttl)
        } else {
            self.end
        };
        Timer { ttl: self.ttl, end }
    }
}
