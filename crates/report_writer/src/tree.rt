//! A report as a tree, as it is before it is spelled. Times and sizes are nanoseconds.
use atom_record::{Bytes, Slice, Value};
use sd_base::Seq;

/// One value of a key.
#[derive(Drop)]
pub struct LeafTree {
    /// The place of the leaf in the key, from 0. The values of a leaf that has many stand at one place.
    pub place: u32,
    /// The value, or none where the atom has none there.
    pub value: Option<Value>,
}

/// A part of a bucket with its number: a count, a duration or a value.
#[derive(Clone, Copy)]
pub struct NumBucket {
    pub start: u64,
    pub end: u64,
    /// A count or a duration above 2^63 - 1 stands here as 2^63 - 1.
    pub value: i64,
}

/// The buckets of one key of a metric with numbers, or those of its overflow row.
#[derive(Drop)]
pub struct NumTree {
    pub leaves: Seq<LeafTree>,
    pub slices: Seq<Slice>,
    /// Whether it gathers what found no room. It has neither leaves nor slices then.
    pub overflow: bool,
    pub buckets: Seq<NumBucket>,
}

/// What a field of an atom holds.
#[derive(Debug, Drop, PartialEq, Eq)]
pub enum PartBody {
    /// A number, one below 0 as the 64 bits of its two's complement.
    Num(u64),
    /// A text, a string of bytes or a message.
    Chunk(Bytes),
    /// Four bytes.
    Bits(u32),
}

/// One field of an atom.
#[derive(Debug, Drop, PartialEq, Eq)]
pub struct Part {
    pub number: u32,
    pub body: PartBody,
}

/// An atom as the message that a report shows.
#[derive(Debug, Drop, PartialEq, Eq)]
pub struct AtomMsg {
    /// The number of its one field: the atom's id, or the greatest field number where the id is above that.
    pub id: u32,
    pub parts: Seq<Part>,
}

/// A part of a bucket with the atoms that were sampled in it.
#[derive(Drop)]
pub struct AtomBucket {
    pub start: u64,
    pub end: u64,
    pub atoms: Seq<AtomMsg>,
}

/// The buckets of one key of a gauge.
#[derive(Drop)]
pub struct GaugeTree {
    pub leaves: Seq<LeafTree>,
    pub slices: Seq<Slice>,
    pub buckets: Seq<AtomBucket>,
}

/// An atom, and when it was logged.
#[derive(Drop)]
pub struct EventTree {
    pub at: u64,
    pub atom: AtomMsg,
}

/// The rows of a metric, by its kind.
#[derive(Drop)]
pub enum MetricBody {
    Events(Seq<EventTree>),
    Counts(Seq<NumTree>),
    Durations(Seq<NumTree>),
    Values(Seq<NumTree>),
    Gauges(Seq<GaugeTree>),
}

/// One metric, with what it didn't show since the last report.
#[derive(Drop)]
pub struct MetricTree {
    pub id: i64,
    /// Where its first bucket begins.
    pub base: u64,
    /// How long a bucket is; 0 for an event metric.
    pub size: u64,
    /// Arrivals of keys that met a full bucket.
    pub dropped: u64,
    /// Rows past those that are kept.
    pub not_kept: u64,
    /// Snapshots that weren't there.
    pub missing: u64,
    pub body: MetricBody,
}

/// How many a full table dropped or a full list didn't keep, by an id.
#[derive(Clone, Copy)]
pub struct Drop64 {
    pub id: i64,
    pub number: u64,
}

/// One alarm of an alert: a key whose sum went above the alert's threshold.
#[derive(Drop)]
pub struct AlarmTree {
    /// The alert.
    pub id: i64,
    /// When the key arrived.
    pub at: u64,
    /// The key's arrivals in the alert's window, up to and with this one.
    pub sum: u64,
    pub leaves: Seq<LeafTree>,
    pub slices: Seq<Slice>,
}

/// A report of one configuration of a client.
#[derive(Drop)]
pub struct ReportTree {
    /// The client.
    pub uid: i32,
    /// The client's configuration.
    pub id: i64,
    /// The clock at the report before, or at the installation.
    pub last: u64,
    /// The clock.
    pub now: u64,
    pub metrics: Seq<MetricTree>,
    /// By the predicates' ids, those above 0 alone.
    pub predicate_drops: Seq<Drop64>,
    /// By the ids of the states' atoms, those above 0 alone.
    pub state_drops: Seq<Drop64>,
    /// State atoms that met a full table of ids.
    pub state_atoms_dropped: u64,
    /// The alarms since the report before that are listed.
    pub alarms: Seq<AlarmTree>,
    /// Alarms past those that are listed, by the alerts' ids, those above 0 alone.
    pub alarms_not_kept: Seq<Drop64>,
}
