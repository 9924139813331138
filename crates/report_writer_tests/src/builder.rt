//! Trees of reports, built a word at a time.
use super::words::{leaf_of, part_of, range_of, slice_of, small};
use atom_record::Slice;
use report_writer::{
    AlarmTree, AtomBucket, AtomMsg, Drop64, EventTree, GaugeTree, LeafTree, MetricBody, MetricTree,
    NumBucket, NumTree, Part, ReportTree,
};
use sd_base::Seq;
use std::alloc::{AllocError, Global};
use std::mem;
use test_tools::{Refusal, signed, unsigned};

/// The kind of a metric.
#[derive(Clone, Copy)]
enum Kind {
    Events,
    Counts,
    Durations,
    Values,
    Gauges,
}

fn kind_of(name: &str) -> Option<Kind> {
    match name {
        "events" => Some(Kind::Events),
        "counts" => Some(Kind::Counts),
        "durations" => Some(Kind::Durations),
        "values" => Some(Kind::Values),
        "gauges" => Some(Kind::Gauges),
        _ => None,
    }
}

/// A metric without its rows.
#[derive(Clone, Copy)]
struct Head {
    kind: Kind,
    id: i64,
    base: u64,
    size: u64,
    dropped: u64,
    not_kept: u64,
    missing: u64,
}

/// The rows of a metric. Those of other kinds are empty.
#[derive(Drop)]
struct Rows {
    events: Seq<EventTree>,
    numbers: Seq<NumTree>,
    gauges: Seq<GaugeTree>,
}

impl Rows {
    fn new(alloc: Global) -> Rows {
        Rows {
            events: Seq::new(alloc),
            numbers: Seq::new(alloc),
            gauges: Seq::new(alloc),
        }
    }

    fn of_kind(self, kind: Kind) -> MetricBody {
        match kind {
            Kind::Events => MetricBody::Events(self.events),
            Kind::Counts => MetricBody::Counts(self.numbers),
            Kind::Durations => MetricBody::Durations(self.numbers),
            Kind::Values => MetricBody::Values(self.numbers),
            Kind::Gauges => MetricBody::Gauges(self.gauges),
        }
    }
}

/// A row: its key, or whether it gathers what found no room, and its buckets, those with a number or those with
/// samples.
#[derive(Drop)]
struct Line {
    leaves: Seq<LeafTree>,
    slices: Seq<Slice>,
    overflow: bool,
    buckets: Seq<NumBucket>,
    samples: Seq<AtomBucket>,
}

impl Line {
    fn new(alloc: Global) -> Line {
        Line {
            leaves: Seq::new(alloc),
            slices: Seq::new(alloc),
            overflow: false,
            buckets: Seq::new(alloc),
            samples: Seq::new(alloc),
        }
    }

    fn of_numbers(self) -> NumTree {
        NumTree {
            leaves: self.leaves,
            slices: self.slices,
            overflow: self.overflow,
            buckets: self.buckets,
        }
    }

    fn of_samples(self) -> GaugeTree {
        GaugeTree {
            leaves: self.leaves,
            slices: self.slices,
            buckets: self.samples,
        }
    }
}

/// An alarm without its key.
#[derive(Clone, Copy)]
struct Alarm {
    id: i64,
    at: u64,
    sum: u64,
}

/// A tree so far, and what is open in it: a metric, a row, a bucket of samples, an event, an atom, an alarm.
#[derive(Drop)]
pub struct Builder {
    alloc: Global,
    tree: ReportTree,
    metric: Option<Head>,
    rows: Rows,
    is_row: bool,
    line: Line,
    bucket: Option<(u64, u64)>,
    atoms: Seq<AtomMsg>,
    event: Option<u64>,
    atom: Option<u32>,
    parts: Seq<Part>,
    alarm: Option<Alarm>,
}

/// A report without a metric.
fn empty_tree(alloc: Global) -> ReportTree {
    ReportTree {
        uid: 0,
        id: 0,
        last: 0,
        now: 0,
        metrics: Seq::new(alloc),
        predicate_drops: Seq::new(alloc),
        state_drops: Seq::new(alloc),
        state_atoms_dropped: 0,
        alarms: Seq::new(alloc),
        alarms_not_kept: Seq::new(alloc),
    }
}

impl Builder {
    pub fn new(alloc: Global) -> Builder {
        Builder {
            alloc,
            tree: empty_tree(alloc),
            metric: None,
            rows: Rows::new(alloc),
            is_row: false,
            line: Line::new(alloc),
            bucket: None,
            atoms: Seq::new(alloc),
            event: None,
            atom: None,
            parts: Seq::new(alloc),
            alarm: None,
        }
    }

    /// Takes a word.
    pub fn push(&mut self, word: &str) -> Result<(), Refusal> {
        if word == "row" {
            self.end_row()?;
            self.is_row = true;
            return Ok(());
        }
        if word == "overflow" {
            self.line.overflow = true;
            return Ok(());
        }
        if word.starts_with('{') {
            return self.push_slice(word);
        }
        if word.starts_with('.') {
            let part = part_of(self.alloc, word)?;
            return Ok(self.parts.push(part)?);
        }
        if word.contains("..") {
            return self.push_bucket(word);
        }
        match word.split_once(':') {
            Some((name, rest)) if !name.contains('=') => self.push_named(name, rest),
            _ => self.push_leaf(word),
        }
    }

    fn push_leaf(&mut self, word: &str) -> Result<(), Refusal> {
        let leaf = leaf_of(self.alloc, word)?;
        Ok(self.line.leaves.push(leaf)?)
    }

    fn push_slice(&mut self, word: &str) -> Result<(), Refusal> {
        match slice_of(word) {
            Some(slice) => Ok(self.line.slices.push(slice)?),
            None => Err(Refusal::Word),
        }
    }

    /// Takes `START..END=NUMBER`, or begins a bucket of samples, as `START..END`.
    fn push_bucket(&mut self, word: &str) -> Result<(), Refusal> {
        let (range, digits) = word.split_once('=').unwrap_or((word, ""));
        let Some((start, end)) = range_of(range) else {
            return Err(Refusal::Word);
        };
        if digits.is_empty() {
            self.end_bucket()?;
            self.bucket = Some((start, end));
            return Ok(());
        }
        let Some(value) = signed(digits) else {
            return Err(Refusal::Word);
        };
        Ok(self.line.buckets.push(NumBucket { start, end, value })?)
    }

    /// Takes what has a name.
    fn push_named(&mut self, name: &str, rest: &str) -> Result<(), Refusal> {
        if let Some(kind) = kind_of(name) {
            return self.begin_metric(kind, rest);
        }
        match name {
            "event" | "atom" => self.begin_atom(name, rest),
            "predicate" | "state" | "alarms_not_kept" => self.push_drop(name, rest),
            "alarm" => self.begin_alarm(rest),
            "at" | "sum" => self.set_alarm(name, rest),
            "uid" | "id" => self.set_owner(name, rest),
            "last" | "now" | "atoms_dropped" => self.set_time(name, rest),
            _ => self.set_metric(name, rest),
        }
    }

    fn begin_metric(&mut self, kind: Kind, rest: &str) -> Result<(), Refusal> {
        let Some(id) = signed(rest) else {
            return Err(Refusal::Word);
        };
        self.end_metric()?;
        self.metric = Some(Head {
            kind,
            id,
            base: 0,
            size: 0,
            dropped: 0,
            not_kept: 0,
            missing: 0,
        });
        Ok(())
    }

    fn begin_atom(&mut self, name: &str, rest: &str) -> Result<(), Refusal> {
        self.end_atom()?;
        match (name, unsigned(rest), small(rest)) {
            ("event", Some(at), _) => self.event = Some(at),
            ("atom", _, Some(id)) => self.atom = Some(id),
            _ => return Err(Refusal::Word),
        }
        Ok(())
    }

    fn begin_alarm(&mut self, rest: &str) -> Result<(), Refusal> {
        let Some(id) = signed(rest) else {
            return Err(Refusal::Word);
        };
        self.end_metric()?;
        self.alarm = Some(Alarm { id, at: 0, sum: 0 });
        Ok(())
    }

    /// Sets a number of the open alarm.
    fn set_alarm(&mut self, name: &str, rest: &str) -> Result<(), Refusal> {
        let (Some(alarm), Some(number)) = (self.alarm, unsigned(rest)) else {
            return Err(Refusal::Word);
        };
        self.alarm = Some(alarm_with(alarm, name, number));
        Ok(())
    }

    /// Takes how many keys a predicate or the keys of a state's atoms dropped, or alarms of an alert aren't listed, as
    /// `ID=NUMBER`.
    fn push_drop(&mut self, name: &str, rest: &str) -> Result<(), Refusal> {
        let (first, second) = rest.split_once('=').unwrap_or((rest, ""));
        let (Some(id), Some(number)) = (signed(first), unsigned(second)) else {
            return Err(Refusal::Word);
        };
        let dropped = Drop64 { id, number };
        match name {
            "state" => Ok(self.tree.state_drops.push(dropped)?),
            "alarms_not_kept" => Ok(self.tree.alarms_not_kept.push(dropped)?),
            _ => Ok(self.tree.predicate_drops.push(dropped)?),
        }
    }

    fn set_owner(&mut self, name: &str, rest: &str) -> Result<(), Refusal> {
        let Some(id) = signed(rest) else {
            return Err(Refusal::Word);
        };
        if name == "id" {
            self.tree.id = id;
            return Ok(());
        }
        let Ok(uid) = i32::try_from(id) else {
            return Err(Refusal::Word);
        };
        self.tree.uid = uid;
        Ok(())
    }

    fn set_time(&mut self, name: &str, rest: &str) -> Result<(), Refusal> {
        let Some(number) = unsigned(rest) else {
            return Err(Refusal::Word);
        };
        match name {
            "last" => self.tree.last = number,
            "now" => self.tree.now = number,
            _ => self.tree.state_atoms_dropped = number,
        }
        Ok(())
    }

    /// Sets a number of the open metric.
    fn set_metric(&mut self, name: &str, rest: &str) -> Result<(), Refusal> {
        let (Some(head), Some(number)) = (self.metric, unsigned(rest)) else {
            return Err(Refusal::Word);
        };
        let Some(changed) = head_with(head, name, number) else {
            return Err(Refusal::Word);
        };
        self.metric = Some(changed);
        Ok(())
    }

    /// Ends the open atom, which is an event's, or a sample.
    fn end_atom(&mut self) -> Result<(), AllocError> {
        let Some(id) = self.atom else {
            return Ok(());
        };
        self.atom = None;
        let parts = mem::replace(&mut self.parts, Seq::new(self.alloc));
        let atom = AtomMsg { id, parts };
        let Some(at) = self.event else {
            return self.atoms.push(atom);
        };
        self.event = None;
        self.rows.events.push(EventTree { at, atom })
    }

    /// Ends the open bucket of samples.
    fn end_bucket(&mut self) -> Result<(), AllocError> {
        self.end_atom()?;
        let Some((start, end)) = self.bucket else {
            return Ok(());
        };
        self.bucket = None;
        let atoms = mem::replace(&mut self.atoms, Seq::new(self.alloc));
        self.line.samples.push(AtomBucket { start, end, atoms })
    }

    /// Ends the open row.
    fn end_row(&mut self) -> Result<(), AllocError> {
        self.end_bucket()?;
        if !self.is_row {
            return Ok(());
        }
        self.is_row = false;
        let line = mem::replace(&mut self.line, Line::new(self.alloc));
        match self.metric {
            Some(
                Head {
                    kind: Kind::Gauges,
                    ..
                },
            ) => self.rows.gauges.push(line.of_samples()),
            _ => self.rows.numbers.push(line.of_numbers()),
        }
    }

    /// Ends the open alarm, whose key is that of the open row.
    fn end_alarm(&mut self) -> Result<(), AllocError> {
        let Some(alarm) = self.alarm else {
            return Ok(());
        };
        self.alarm = None;
        let line = mem::replace(&mut self.line, Line::new(self.alloc));
        self.tree.alarms.push(AlarmTree {
            id: alarm.id,
            at: alarm.at,
            sum: alarm.sum,
            leaves: line.leaves,
            slices: line.slices,
        })
    }

    /// Ends the open metric or alarm.
    fn end_metric(&mut self) -> Result<(), AllocError> {
        self.end_row()?;
        self.end_alarm()?;
        let Some(head) = self.metric else {
            return Ok(());
        };
        self.metric = None;
        let rows = mem::replace(&mut self.rows, Rows::new(self.alloc));
        let metric = metric_of(head, rows.of_kind(head.kind));
        self.tree.metrics.push(metric)
    }

    /// The tree.
    pub fn finish(mut self) -> Result<ReportTree, AllocError> {
        self.end_metric()?;
        Ok(self.tree)
    }
}

/// An alarm with its time or its sum changed.
fn alarm_with(alarm: Alarm, name: &str, number: u64) -> Alarm {
    let mut changed = alarm;
    if name == "at" {
        changed.at = number;
    } else {
        changed.sum = number;
    }
    changed
}

/// A metric with one of its numbers changed.
fn head_with(head: Head, name: &str, number: u64) -> Option<Head> {
    let mut changed = head;
    match name {
        "base" => changed.base = number,
        "size" => changed.size = number,
        "dropped" => changed.dropped = number,
        "not_kept" => changed.not_kept = number,
        "missing" => changed.missing = number,
        _ => return None,
    }
    Some(changed)
}

fn metric_of(head: Head, body: MetricBody) -> MetricTree {
    MetricTree {
        id: head.id,
        base: head.base,
        size: head.size,
        dropped: head.dropped,
        not_kept: head.not_kept,
        missing: head.missing,
        body,
    }
}
