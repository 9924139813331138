//! The flat forms of these producers.
ghost use Rattle.std.proofs.Common.{refl};
ghost use Rattle.flat_form.specs.Bounded.{short_head};
ghost use Rattle.std.specs.Prelude.{◌≡◌};

use crate::memory::Memory;
use crate::{EventProducer, PushedGauge, Row};
use atom_record::{Atom, MetricKey};
use dim_table::Guarded;
use flat_form::{Flat, FlatError, Items};
use kept_rows::KeptRows;
use sd_base::Seq;
use std::alloc::{AllocError, Global};

/// The rows that these producers keep.
type AtomRows = KeptRows<Row<Seq<Atom>>>;

/// The parts of a pushed gauge.
type Parts = (u64, (u64, (Guarded<MetricKey, Seq<Atom>>, AtomRows)));

impl Flat for EventProducer {
    ghost use Rattle.gauge_metric.specs.EventItems.{events_items, IsEvents, AreSavableEvents, events_entries, events_bounded, events_few, events_savable};

    ghost flat = { events_items };

    ghost valid = { IsEvents };

    ghost savable = { AreSavableEvents };

    ghost head = { 3 };

    ghost short = { short_head 3 refl };

    ghost entries = { events_entries };

    ghost bounded = { events_bounded };

    ghost few = { events_few };

    ghost spells = { events_savable };

    fn show_valid(&self) {
        self.kept.show_valid();
    }

    fn flatten(&self, alloc: Global, out: &mut Items) -> Result<(), AllocError> {
        self.kept.flatten(alloc, out)
    }

    fn build(
        alloc: Global,
        items: &Items,
        place: usize,
    ) -> Result<(EventProducer, usize), FlatError> {
        let (kept, next) = AtomRows::build(alloc, items, place)?;
        let events = EventProducer {
            kept,
            memory: Memory::new(alloc),
        };
        Ok((events, next))
    }
}

impl Flat for PushedGauge {
    ghost use Rattle.gauge_metric.specs.GaugeItems.{gauge_items, IsGauge, IsSavableGauge, gauge_entries, gauge_bounded, gauge_few, gauge_savable};

    ghost flat = { gauge_items };

    ghost valid = { IsGauge };

    ghost savable = { IsSavableGauge };

    ghost head = { 8 };

    ghost short = { short_head 8 refl };

    ghost entries = { gauge_entries };

    ghost bounded = { gauge_bounded };

    ghost few = { gauge_few };

    ghost spells = { gauge_savable };

    fn show_valid(&self) {
        self.table.show_valid();
        self.kept.show_valid();
    }

    fn flatten(&self, alloc: Global, out: &mut Items) -> Result<(), AllocError> {
        self.start.flatten(alloc, out)?;
        self.samples.flatten(alloc, out)?;
        self.table.flatten(alloc, out)?;
        self.kept.flatten(alloc, out)
    }

    fn build(
        alloc: Global,
        items: &Items,
        place: usize,
    ) -> Result<(PushedGauge, usize), FlatError> {
        let (parts, next) = Parts::build(alloc, items, place)?;
        let (start, (samples, (table, kept))) = parts;
        let gauge = PushedGauge {
            start,
            samples,
            table,
            kept,
            memory: Memory::new(alloc),
        };
        Ok((gauge, next))
    }
}
