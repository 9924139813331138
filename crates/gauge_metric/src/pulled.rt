//! The first samples of snapshots, by key, at the moments of a mode.
ghost use Rattle.std.specs.Prelude.{◌≡◌, ◌*◌, ◌<◌, ◌≤◌, [], ◌∷◌, OnOk, IfOk};
ghost use Rattle.bucket_meaning.specs.Limits.{longest_bucket, time_limit, most_keys};
ghost use Rattle.bucket_meaning.specs.Marks.{Ends};
ghost use Rattle.bucket_meaning.specs.Kept.{most_weight};
ghost use Rattle.gauge_metric.specs.Sampling.{most_key_samples};
ghost use Rattle.gauge_metric.specs.PulledSampling.{is_told_held, is_told_moment, is_start_moment, is_trigger_moment, marks_if};
ghost use Rattle.gauge_metric.specs.PulledStands.{PulledGaugeStandsFor, Brings, TakesSampleMarks, TakesMoment, BeginsPart, with_counts, RepeatsPart};

use crate::gauge::keep_all;
use crate::memory::Memory;
use crate::repeated::keep_again;
use crate::snapshot::{SnapAtoms, sample_all};
use crate::{Closed, KeyedAtom, Producer, Row};
use atom_record::{Atom, MetricKey};
use bucket_clock::Crossings;
use config_types::Sampling;
use dim_table::Guarded;
use kept_rows::KeptRows;
use predicate_state::Truth;
use sd_base::Seq;
use std::alloc::{AllocError, Global};

/// How a pulled gauge takes samples.
#[derive(Clone, Copy, Debug)]
pub struct SampleSpec {
    /// How many samples of a key a part keeps, from 1 to 100.
    pub samples: usize,
    /// At which moments.
    pub mode: Sampling,
}

/// The first samples of one metric that takes them from snapshots, by key.
#[derive(Drop)]
pub struct PulledGauge {
    pub(crate) start: u64,
    pub(crate) samples: u64,
    pub(crate) mode: Sampling,
    pub(crate) told: Option<Truth>,
    pub(crate) snapshot: Option<Seq<KeyedAtom>>,
    pub(crate) table: Guarded<MetricKey, Seq<Atom>>,
    pub(crate) kept: KeptRows<Row<Seq<Atom>>>,
    pub(crate) dropped: u64,
    pub(crate) missing: u64,
    pub(crate) memory: Memory,
}

/// What a moment brings: how many samples were dropped, and whether a snapshot was missing.
#[derive(Drop)]
pub struct Brought {
    pub(crate) lost: u64,
    pub(crate) missed: u64,
}

// Whether a condition is known to be true.
fn is_true(told: Option<Truth>) -> bool
    ensures { result ≡ is_told_held told }
{
    matches!(told, Some(Truth::True))
}

// Whether samples are taken where this condition is told, after what was told last.
fn samples_told(mode: Sampling, told: Option<Truth>, now: Truth) -> bool
    ensures { result ≡ is_told_moment mode told now }
{
    let turns = is_true(Some(now)) && !is_true(told);
    match mode {
        Sampling::AtStart => turns,
        Sampling::AtChange => turns && told.is_some(),
        Sampling::AtTrigger => false,
    }
}

// Whether samples are taken where a part begins.
fn samples_start(mode: Sampling, told: Option<Truth>) -> bool
    ensures { result ≡ is_start_moment mode told }
{
    match mode {
        Sampling::AtStart => is_true(told),
        Sampling::AtChange => false,
        Sampling::AtTrigger => false,
    }
}

// Whether samples are taken at an atom of the trigger.
fn samples_trigger(mode: Sampling, told: Option<Truth>) -> bool
    ensures { result ≡ is_trigger_moment mode told }
{
    match mode {
        Sampling::AtStart => false,
        Sampling::AtChange => false,
        Sampling::AtTrigger => is_true(told),
    }
}

// Takes samples of a snapshot, or finds that there is none.
fn bring(
    table: &mut Guarded<MetricKey, Seq<Atom>>,
    alloc: Global,
    samples: u64,
    snapshot: &Option<Seq<KeyedAtom>>,
) -> Result<Brought, AllocError>
    ensures { IfOk result (Brings samples table.old table.new snapshot.now) }
{
    let Some(found) = snapshot else {
        return Ok(Brought { lost: 0, missed: 1 });
    };
    sample_all(table, alloc, samples, found.as_slice())?;
    let lost = table.take_dropped();
    Ok(Brought { lost, missed: 0 })
}

impl PulledGauge {
    /// Of no samples, and told nothing yet. Time begins at `base`, a full bucket is `size` long, and a part admits
    /// `bound` keys with so many samples each.
    pub fn new(alloc: Global, base: u64, size: u64, bound: usize, spec: SampleSpec) -> PulledGauge
        requires base_fits { base < time_limit }
        requires least_size { 1 ≤ size }
        requires most_size { size ≤ longest_bucket }
        requires least_bound { 1 ≤ bound }
        requires most_bound { bound ≤ most_keys }
        requires least_samples { 1 ≤ spec.samples }
        requires few_samples { spec.samples ≤ most_key_samples }
        requires fit_together { bound * spec.samples ≤ most_weight }
        ensures { PulledGaugeStandsFor result
            (record { base = base; size = size; bound = bound; spec = spec }) [] }
    {
        let _size = size;
        PulledGauge {
            start: base,
            samples: spec.samples as u64,
            mode: spec.mode,
            told: None,
            snapshot: None,
            table: Guarded::new(alloc, bound),
            kept: KeptRows::new(alloc),
            dropped: 0,
            missing: 0,
            memory: Memory::new(alloc),
        }
    }

    // Takes samples of the last snapshot, or counts that it is missing.
    fn sample(&mut self) -> Result<Brought, AllocError>
        ensures { IfOk result (TakesMoment self.old self.new) }
    {
        let alloc = self.memory.alloc();
        let brought = bring(&mut self.table, alloc, self.samples, &self.snapshot)?;
        self.count(&brought, 1);
        Ok(brought)
    }

    // Counts what a moment brings, so many times.
    fn count(&mut self, brought: &Brought, times: u64)
        ensures { self.new ≡ with_counts self.old brought.now times }
    {
        let lost = brought.lost.saturating_mul(times);
        self.dropped = self.dropped.saturating_add(lost);
        let missed = brought.missed.saturating_mul(times);
        self.missing = self.missing.saturating_add(missed);
    }

    // Closes the open part at a time. The next has no sample yet.
    fn close(&mut self, end: u64) -> Result<(), AllocError>
        ensures { OnOk result (TakesSampleMarks self.old self.new (Ends end ∷ [])) }
    {
        let start = self.start;
        self.start = end;
        keep_all(&mut self.kept, start, end, self.table.move_out())
    }

    // A part begins, maybe with samples.
    fn begin(&mut self) -> Result<Brought, AllocError>
        ensures { IfOk result (BeginsPart self.old self.new) }
    {
        if !samples_start(self.mode, self.told) {
            return Ok(Brought { lost: 0, missed: 0 });
        }
        self.sample()
    }

    // Full buckets go by, each of which has what the open part has.
    fn repeat(&mut self, crossings: Crossings, brought: &Brought) -> Result<(), AllocError>
        ensures { OnOk result (RepeatsPart self.old self.new crossings brought.now) }
    {
        let alloc = self.memory.alloc();
        keep_again(&mut self.kept, alloc, &self.table, crossings)?;
        let full = crossings.full_buckets.saturating_mul(crossings.size);
        self.start = crossings.first_end.saturating_add(full);
        self.count(brought, crossings.full_buckets);
        Ok(())
    }

    // An atom of the trigger came.
    fn trigger(&mut self) -> Result<(), AllocError>
        ensures { OnOk result (TakesSampleMarks self.old self.new
            (marks_if (is_trigger_moment self.old.mode self.old.told) self.old.snapshot)) }
    {
        if samples_trigger(self.mode, self.told) {
            let _brought = self.sample()?;
        }
        Ok(())
    }
}

impl Producer for PulledGauge {
    ghost use Rattle.atom_record.specs.declared.atom.Atom.{Atom};
    ghost use Rattle.atom_record.specs.declared.value.MetricKey.{MetricKey};
    ghost use Rattle.gauge_metric.specs.PulledSampling.{PulledGaugeParams};
    ghost use Rattle.gauge_metric.specs.PulledStands.{pulled_law};

    type Event = SnapAtoms;

    type After = Truth;

    type Value = Seq<Atom>;

    ghost Params = { PulledGaugeParams };

    ghost What = { MetricKey × Atom };

    ghost Key = { MetricKey };

    ghost Share = { Atom };

    ghost law = { pulled_law };

    fn event(&mut self, at: u64, ev: SnapAtoms) -> Result<(), AllocError> {
        let _at = at;
        match ev {
            SnapAtoms::Snapshot(found) => self.snapshot = found,
            SnapAtoms::Trigger => self.trigger()?,
        }
        Ok(())
    }

    // The first condition begins an interval as at a part's start, and is no change.
    fn condition(&mut self, at: u64, now: Truth) -> Result<(), AllocError> {
        let _at = at;
        let is_moment = samples_told(self.mode, self.told, now);
        self.told = Some(now);
        if is_moment {
            let _brought = self.sample()?;
        }
        Ok(())
    }

    fn cross(&mut self, crossings: Crossings) -> Result<(), AllocError> {
        self.close(crossings.first_end)?;
        let brought = self.begin()?;
        self.repeat(crossings, &brought)
    }

    // What the part after a cut opens with belongs to the report that cuts.
    fn cut(&mut self, at: u64) -> Result<(), AllocError> {
        self.close(at)?;
        let _brought = self.begin()?;
        Ok(())
    }

    fn take(&mut self) -> Closed<Seq<Atom>> {
        let (rows, not_kept) = self.kept.take();
        let (dropped, missing) = (self.dropped, self.missing);
        self.dropped = 0;
        self.missing = 0;
        Closed {
            rows,
            not_kept,
            dropped,
            missing,
        }
    }
}
