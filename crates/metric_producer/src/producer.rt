//! The law of all kinds of metric.
ghost use Rattle.std.specs.Prelude.{OnOk};
ghost use Rattle.metric_producer.specs.Calls.{Got, Learned, Crossed, CutAt, Took};
ghost use Rattle.metric_producer.specs.Moves.{Moves};
ghost use Rattle.metric_producer.specs.declared.row.Row.{Row};
ghost use Rattle.metric_producer.specs.Collecting.{Law, Gives};

use crate::Closed;
use bucket_clock::Crossings;
use std::alloc::AllocError;

/// An object that collects the events of one metric into parts of time, and hands out what it keeps of them.
///
/// After want of memory nothing more is said of it: it can only be dropped.
pub trait Producer: Sized {
    /// What may arrive.
    type Event: Drop;

    /// What it is told of its condition after a step.
    type After: Drop;

    /// What a row holds.
    type Value: Drop;

    /// What an object is made with.
    ghost Params: { Type 0 };

    /// What comes into a part.
    ghost What: { Type 0 };

    /// What rows are made for.
    ghost Key: { Type 0 };

    /// What an arrival contributes to its key.
    ghost Share: { Type 0 };

    /// What an object stands for, what it asks of its calls, and what it makes of them.
    ghost law: { Law Self Params Self.Event Self.After What Key Share (Row Self.Value) };

    /// An event comes.
    fn event(&mut self, at: u64, ev: Self::Event) -> Result<(), AllocError>
        ensures { OnOk result (Moves law self.old self.new (Got at ev)) };

    /// It learns its condition after a step.
    fn condition(&mut self, at: u64, now: Self::After) -> Result<(), AllocError>
        ensures { OnOk result (Moves law self.old self.new (Learned at now)) };

    /// A frame crosses ends of buckets, which closes the open part, and full buckets after it.
    fn cross(&mut self, crossings: Crossings) -> Result<(), AllocError>
        ensures { OnOk result (Moves law self.old self.new (Crossed crossings)) };

    /// A report cuts the open part, even if its length is 0.
    fn cut(&mut self, at: u64) -> Result<(), AllocError>
        ensures { OnOk result (Moves law self.old self.new (CutAt at)) };

    /// Hands out what a report shows, and starts anew. The open part goes on. It takes no memory.
    fn take(&mut self) -> Closed<Self::Value>
        ensures gives { Gives law self.old result }
        ensures moves { Moves law self.old self.new Took };
}

/// A producer that reads an event and keeps of it what it has to: most events are of a key that it has already.
pub trait ReadsEvents: Producer {
    /// An event comes, as by `event`. It stays with its owner.
    fn event_of(&mut self, at: u64, ev: &Self::Event) -> Result<(), AllocError>
        ensures { OnOk result (Moves Self.law self.old self.new (Got at ev.now)) };
}
