//! The first samples of logged atoms, by key.
ghost use Rattle.std.specs.Prelude.{◌≡◌, ◌*◌, ◌<◌, ◌≤◌, [], OnOk, OnErr, IsTrue};
ghost use Rattle.bucket_meaning.specs.Limits.{longest_bucket, time_limit, most_keys};
ghost use Rattle.bucket_meaning.specs.Kept.{most_weight};
ghost use Rattle.gauge_metric.specs.Sampling.{most_key_samples};
ghost use Rattle.gauge_metric.specs.GaugeStands.{with_sample, SamplesAt, IsFullAt, AddsSampled, TakesSample, GaugeStandsFor, gauge_law, LetsKeyGo, ClosesGauge};

use crate::memory::Memory;
use crate::{Closed, Producer, Row};
use atom_record::{Atom, MetricKey};
use bucket_clock::Crossings;
use dim_table::{Admit, Guarded};
use indexmap::map::IntoIter;
use kept_rows::KeptRows;
use sd_base::Seq;
use std::alloc::{AllocError, Global};

/// A sample: what a gauge shows of an atom, and the key that it comes with.
#[derive(Drop)]
pub struct KeyedAtom {
    /// The key.
    pub key: MetricKey,
    /// What is shown of the atom.
    pub atom: Atom,
}

/// The first samples of one metric, by key.
#[derive(Drop)]
pub struct PushedGauge {
    pub(crate) start: u64,
    pub(crate) samples: u64,
    pub(crate) table: Guarded<MetricKey, Seq<Atom>>,
    pub(crate) kept: KeptRows<Row<Seq<Atom>>>,
    pub(crate) memory: Memory,
}

impl PushedGauge {
    /// Of no samples. Time begins at `base`, a full bucket is `size` long, and a part admits `bound` keys with so many
    /// samples each.
    pub fn new(alloc: Global, base: u64, size: u64, bound: usize, samples: usize) -> PushedGauge
        requires base_fits { base < time_limit }
        requires least_size { 1 ≤ size }
        requires most_size { size ≤ longest_bucket }
        requires least_bound { 1 ≤ bound }
        requires most_bound { bound ≤ most_keys }
        requires least_samples { 1 ≤ samples }
        requires few_samples { samples ≤ most_key_samples }
        requires fit_together { bound * samples ≤ most_weight }
        ensures { GaugeStandsFor result
            (record { base = base; size = size; bound = bound; samples = samples }) [] }
    {
        let _size = size;
        PushedGauge {
            start: base,
            samples: samples as u64,
            table: Guarded::new(alloc, bound),
            kept: KeptRows::new(alloc),
            memory: Memory::new(alloc),
        }
    }

    /// Whether a sample with this key is let go: it would be one past the first of its key in the open part, so that
    /// whatever the gauge stood for, it stands for that and the sample, as it is.
    pub fn lets_go(&self, key: &MetricKey) -> bool
        ensures { IsTrue result → LetsKeyGo self.now key.now }
    {
        match self.table.place_of(key) {
            Some(place) => self.has_all(place),
            None => false,
        }
    }

    // Whether there is a row at a place, and it takes no more samples.
    fn has_all(&self, place: usize) -> bool
        ensures { IsTrue result → IsFullAt self.now.samples self.now.table place }
    {
        match self.table.pair(place) {
            Some((_, atoms)) => atoms.len() as u64 >= self.samples,
            None => false,
        }
    }

    // Closes the open part at a time, and opens the next.
    fn close(&mut self, end: u64) -> Result<(), AllocError>
        ensures { OnOk result (ClosesGauge self.old self.new end) }
    {
        let start = self.start;
        self.start = end;
        keep_all(&mut self.kept, start, end, self.table.move_out())
    }
}

// Keeps a row for each key and its samples, in order, or counts it.
pub(crate) fn keep_all(
    kept: &mut KeptRows<Row<Seq<Atom>>>,
    start: u64,
    end: u64,
    sampled: IntoIter<MetricKey, Seq<Atom>>,
) -> Result<(), AllocError>
    ensures { OnOk result (AddsSampled start end sampled kept.old kept.new) }
{
    for (key, value) in sampled {
        let row = Row {
            key,
            start,
            end,
            value,
        };
        kept.put(row)?;
    }
    Ok(())
}

// One more sample comes with a key.
fn arrive(
    table: &mut Guarded<MetricKey, Seq<Atom>>,
    alloc: Global,
    samples: u64,
    event: KeyedAtom,
) -> Result<(), AllocError>
    ensures { OnOk result (TakesSample samples table.old table.new event) }
{
    let KeyedAtom { key, atom } = event;
    match table.admit(key, Seq::new(alloc))? {
        Admit::At(place) => sample(table, place, samples, atom)?,
        Admit::Full => (),
    }
    Ok(())
}

// Adds a sample to the row at a place.
fn sample(
    table: &mut Guarded<MetricKey, Seq<Atom>>,
    place: usize,
    samples: u64,
    atom: Atom,
) -> Result<(), AllocError>
    ensures bound { OnOk result (table.new.bound ≡ table.old.bound) }
    ensures added { OnOk result (SamplesAt samples place atom table.old table.new) }
{
    if let Some(atoms) = table.value_at(place) {
        push_within(atoms, samples, atom)?;
    }
    Ok(())
}

// Adds an atom where there are fewer than so many. One past them is let go.
fn push_within(atoms: &mut Seq<Atom>, samples: u64, atom: Atom) -> Result<(), AllocError>
    ensures { OnOk result (atoms.new ≡ with_sample samples atoms.old atom) }
{
    if atoms.len() as u64 >= samples {
        return Ok(());
    }
    atoms.push(atom)
}

impl Producer for PushedGauge {
    ghost use Rattle.atom_record.specs.declared.atom.Atom.{Atom};
    ghost use Rattle.atom_record.specs.declared.value.MetricKey.{MetricKey};
    ghost use Rattle.gauge_metric.specs.Sampling.{GaugeParams};
    ghost use Rattle.gauge_metric.specs.GaugeStands.{gauge_law};

    type Event = KeyedAtom;

    type After = ();

    type Value = Seq<Atom>;

    ghost Params = { GaugeParams };

    ghost What = { MetricKey × Atom };

    ghost Key = { MetricKey };

    ghost Share = { Atom };

    ghost law = { gauge_law };

    fn event(&mut self, at: u64, ev: KeyedAtom) -> Result<(), AllocError> {
        let _at = at;
        let alloc = self.memory.alloc();
        arrive(&mut self.table, alloc, self.samples, ev)
    }

    fn condition(&mut self, at: u64, now: ()) -> Result<(), AllocError> {
        let _at = at;
        let _now = now;
        let _self = &*self;
        Ok(())
    }

    fn cross(&mut self, crossings: Crossings) -> Result<(), AllocError> {
        self.close(crossings.first_end)?;
        let full = crossings.full_buckets.saturating_mul(crossings.size);
        self.start = crossings.first_end.saturating_add(full);
        Ok(())
    }

    fn cut(&mut self, at: u64) -> Result<(), AllocError> {
        self.close(at)
    }

    fn take(&mut self) -> Closed<Seq<Atom>> {
        let (rows, not_kept) = self.kept.take();
        Closed {
            rows,
            not_kept,
            dropped: self.table.take_dropped(),
            missing: 0,
        }
    }
}
