//! The flat forms of samples and of pulled gauges.
ghost use Rattle.std.proofs.Common.{refl};
ghost use Rattle.std.specs.Prelude.{◌≡◌, ◌++◌, OnOk, OnErr};
ghost use Rattle.flat_form.specs.Flat.{IsFront};
ghost use Rattle.flat_form.specs.Bounded.{short_head};
ghost use Rattle.gauge_metric.specs.PulledItems.{mode_number, mode_of, told_number, told_by_number, snapshot_in, snapshot_items, pulled_numbers, gauge_of_form};

use crate::memory::Memory;
use crate::{KeyedAtom, PulledGauge, Row};
use atom_record::{Atom, MetricKey};
use config_types::Sampling;
use dim_table::Guarded;
use flat_form::{Flat, FlatError, Items};
use kept_rows::KeptRows;
use predicate_state::Truth;
use sd_base::Seq;
use std::alloc::{AllocError, Global};

/// What a pulled gauge keeps between two reports.
type Books = (Guarded<MetricKey, Seq<Atom>>, KeptRows<Row<Seq<Atom>>>);

/// The counts of a pulled gauge, its snapshot, and its books.
type Rest = (u64, (u64, (Seq<Seq<KeyedAtom>>, Books)));

/// The parts of a pulled gauge.
type Parts = (u64, (u64, (u64, (u64, Rest))));

impl Flat for KeyedAtom {
    ghost use Rattle.flat_form.specs.Bounded.{none_few};
    ghost use Rattle.gauge_metric.specs.PulledItems.{sample_items, IsSavableSample, sample_bounded, sample_savable};

    ghost flat = { sample_items };

    ghost savable = { IsSavableSample };

    ghost head = { 3 };

    ghost short = { short_head 3 refl };

    ghost bounded = { sample_bounded };

    ghost few = { none_few sample_items };

    ghost spells = { sample_savable };

    fn show_valid(&self) {}

    fn flatten(&self, alloc: Global, out: &mut Items) -> Result<(), AllocError> {
        self.key.flatten(alloc, out)?;
        self.atom.flatten(alloc, out)
    }

    fn build(alloc: Global, items: &Items, place: usize) -> Result<(KeyedAtom, usize), FlatError> {
        let (form, next) = <(MetricKey, Atom)>::build(alloc, items, place)?;
        let (key, atom) = form;
        Ok((KeyedAtom { key, atom }, next))
    }
}

// The number of a mode.
fn number_of_mode(mode: Sampling) -> u64
    ensures { result ≡ mode_number mode }
{
    match mode {
        Sampling::AtStart => 0,
        Sampling::AtChange => 1,
        Sampling::AtTrigger => 2,
    }
}

// The mode of a number, if it is one.
fn mode_by(number: u64) -> Option<Sampling>
    ensures { result ≡ mode_of number }
{
    match number {
        0 => Some(Sampling::AtStart),
        1 => Some(Sampling::AtChange),
        2 => Some(Sampling::AtTrigger),
        _ => None,
    }
}

// The number of what was told last of a condition.
fn number_of_told(told: Option<Truth>) -> u64
    ensures { result ≡ told_number told }
{
    match told {
        None => 0,
        Some(Truth::False) => 1,
        Some(Truth::Unknown) => 2,
        Some(Truth::True) => 3,
    }
}

// What was told last, by its number.
fn told_by(number: u64) -> Option<Option<Truth>>
    ensures { result ≡ told_by_number number }
{
    match number {
        0 => Some(None),
        1 => Some(Some(Truth::False)),
        2 => Some(Some(Truth::Unknown)),
        3 => Some(Some(Truth::True)),
        _ => None,
    }
}

// Adds the numbers of a gauge.
fn flatten_numbers(gauge: &PulledGauge, alloc: Global, out: &mut Items) -> Result<(), AllocError>
    ensures added { OnOk result (out.new ≡ out.old ++ pulled_numbers gauge.now) }
    ensures err { OnErr result (IsFront out.old out.new) }
{
    (gauge.start, gauge.samples).flatten(alloc, out)?;
    number_of_mode(gauge.mode).flatten(alloc, out)?;
    number_of_told(gauge.told).flatten(alloc, out)?;
    (gauge.dropped, gauge.missing).flatten(alloc, out)
}

// Adds the items of a snapshot, or that there is none.
fn flatten_snapshot(
    snapshot: &Option<Seq<KeyedAtom>>,
    alloc: Global,
    out: &mut Items,
) -> Result<(), AllocError>
    ensures added { OnOk result (out.new ≡ out.old ++ snapshot_items snapshot.now) }
    ensures err { OnErr result (IsFront out.old out.new) }
{
    let Some(samples) = snapshot else {
        let none: u64 = 0;
        return none.flatten(alloc, out);
    };
    let one: u64 = 1;
    one.flatten(alloc, out)?;
    samples.flatten(alloc, out)
}

// The snapshot of a list, which is empty where there is none.
fn snapshot_by(snapshots: Seq<Seq<KeyedAtom>>) -> Option<Option<Seq<KeyedAtom>>>
    ensures { result ≡ snapshot_in snapshots }
{
    let mut list = snapshots.into_vec();
    if list.len() > 1 {
        return None;
    }
    Some(list.pop())
}

// The gauge of some parts, if there is one.
fn gauge_by(alloc: Global, parts: Parts) -> Option<PulledGauge>
    ensures { result ≡ gauge_of_form parts }
{
    let (start, (samples, (mode, (told, rest)))) = parts;
    let (dropped, (missing, (snapshots, (table, kept)))) = rest;
    let mode = mode_by(mode)?;
    let told = told_by(told)?;
    let snapshot = snapshot_by(snapshots)?;
    Some(PulledGauge {
        start,
        samples,
        mode,
        told,
        snapshot,
        table,
        kept,
        dropped,
        missing,
        memory: Memory::new(alloc),
    })
}

impl Flat for PulledGauge {
    ghost use Rattle.gauge_metric.specs.PulledItems.{pulled_items, IsPulledGauge, IsSavablePulled, pulled_entries, pulled_bounded, pulled_few, pulled_savable};

    ghost flat = { pulled_items };

    ghost valid = { IsPulledGauge };

    ghost savable = { IsSavablePulled };

    ghost head = { 14 };

    ghost short = { short_head 14 refl };

    ghost entries = { pulled_entries };

    ghost bounded = { pulled_bounded };

    ghost few = { pulled_few };

    ghost spells = { pulled_savable };

    fn show_valid(&self) {
        self.table.show_valid();
        self.kept.show_valid();
    }

    fn flatten(&self, alloc: Global, out: &mut Items) -> Result<(), AllocError> {
        flatten_numbers(self, alloc, out)?;
        flatten_snapshot(&self.snapshot, alloc, out)?;
        self.table.flatten(alloc, out)?;
        self.kept.flatten(alloc, out)
    }

    fn build(
        alloc: Global,
        items: &Items,
        place: usize,
    ) -> Result<(PulledGauge, usize), FlatError> {
        let (parts, next) = Parts::build(alloc, items, place)?;
        let Some(gauge) = gauge_by(alloc, parts) else {
            return Err(FlatError::Bad);
        };
        Ok((gauge, next))
    }
}
