//! Samples of a snapshot's atoms, which stays for later moments, so that its atoms are copied.
ghost use Rattle.std.specs.Prelude.{◌≡◌, OnOk};
ghost use Rattle.gauge_metric.specs.GaugeStands.{with_sample, SamplesAt, TakesSample};
ghost use Rattle.gauge_metric.specs.PulledStands.{TakesSamples};

use crate::KeyedAtom;
use atom_record::{Atom, MetricKey};
use dim_table::{Admit, Guarded};
use sd_base::Seq;
use std::alloc::{AllocError, Global};

/// What happens to a pulled gauge besides its condition.
#[derive(Drop)]
pub enum SnapAtoms {
    /// The samples that the last pull gave, or that there are none since it failed.
    Snapshot(Option<Seq<KeyedAtom>>),
    /// An atom that matches the trigger.
    Trigger,
}

/// Each sample of a snapshot comes, in order.
pub(crate) fn sample_all(
    table: &mut Guarded<MetricKey, Seq<Atom>>,
    alloc: Global,
    samples: u64,
    snapshot: &[KeyedAtom],
) -> Result<(), AllocError>
    ensures { OnOk result (TakesSamples samples table.old table.new snapshot.now) }
{
    for sample in snapshot {
        sample_one(table, alloc, samples, sample)?;
    }
    Ok(())
}

// One more sample comes with a key. What isn't kept of it isn't copied.
fn sample_one(
    table: &mut Guarded<MetricKey, Seq<Atom>>,
    alloc: Global,
    samples: u64,
    sample: &KeyedAtom,
) -> Result<(), AllocError>
    ensures { OnOk result (TakesSample samples table.old table.new sample.now) }
{
    match table.admit_copy(&sample.key, Seq::new(alloc))? {
        Admit::At(place) => sample_copy(table, alloc, place, samples, &sample.atom)?,
        Admit::Full => (),
    }
    Ok(())
}

// Adds a copy of a sample to the row at a place.
fn sample_copy(
    table: &mut Guarded<MetricKey, Seq<Atom>>,
    alloc: Global,
    place: usize,
    samples: u64,
    atom: &Atom,
) -> Result<(), AllocError>
    ensures bound { OnOk result (table.new.bound ≡ table.old.bound) }
    ensures added { OnOk result (SamplesAt samples place atom.now table.old table.new) }
{
    if let Some(atoms) = table.value_at(place) {
        copy_within(atoms, alloc, samples, atom)?;
    }
    Ok(())
}

// Adds a copy of an atom where there are fewer than so many. One past them isn't copied.
fn copy_within(
    atoms: &mut Seq<Atom>,
    alloc: Global,
    samples: u64,
    atom: &Atom,
) -> Result<(), AllocError>
    ensures { OnOk result (atoms.new ≡ with_sample samples atoms.old atom.now) }
{
    if atoms.len() as u64 >= samples {
        return Ok(());
    }
    open_room(atoms, alloc)?;
    atoms.push(atom.clone_atom(alloc)?)
}

// Makes room for one atom where none is yet, since most keys have one sample in a part.
fn open_room(atoms: &mut Seq<Atom>, alloc: Global) -> Result<(), AllocError>
    ensures { OnOk result (atoms.new ≡ atoms.old) }
{
    if atoms.is_empty() {
        *atoms = Seq::with_capacity(alloc, 1)?;
    }
    Ok(())
}
