//! Events, each as it came.
ghost use Rattle.std.specs.Prelude.{◌≡◌, ℕ, [], IfOk};
ghost use Rattle.metric_kinds.specs.Events.{event_row};
ghost use Rattle.gauge_metric.specs.EventStands.{EventsStandFor};

use crate::memory::Memory;
use crate::{Closed, Producer, Row};
use atom_record::{Atom, DimKey, MetricKey};
use bucket_clock::Crossings;
use kept_rows::KeptRows;
use sd_base::Seq;
use std::alloc::{AllocError, Global};

/// The events of one metric. Each is a row of its own, and there are no buckets.
#[derive(Drop)]
pub struct EventProducer {
    pub(crate) kept: KeptRows<Row<Seq<Atom>>>,
    pub(crate) memory: Memory,
}

impl EventProducer {
    /// Of no events, whenever its time begins.
    pub fn new(alloc: Global) -> EventProducer
        ensures { (base : ℕ) → EventsStandFor result base [] }
    {
        EventProducer {
            kept: KeptRows::new(alloc),
            memory: Memory::new(alloc),
        }
    }
}

// The row of an atom, which begins and ends at its time.
fn row_of(alloc: Global, at: u64, atom: Atom) -> Result<Row<Seq<Atom>>, AllocError>
    ensures { IfOk result (λ row. row ≡ event_row (record { at = at; atom = atom })) }
{
    let mut value = Seq::with_capacity(alloc, 1)?;
    value.push(atom)?;
    let key = MetricKey {
        dims: DimKey::new(alloc),
        slices: Seq::new(alloc),
    };
    Ok(Row {
        key,
        start: at,
        end: at,
        value,
    })
}

impl Producer for EventProducer {
    ghost use Rattle.std.specs.Prelude.{ℕ};
    ghost use Rattle.atom_record.specs.declared.value.MetricKey.{MetricKey};
    ghost use Rattle.metric_kinds.specs.Events.{EventAtom};
    ghost use Rattle.gauge_metric.specs.EventStands.{event_law};

    type Event = Atom;

    type After = ();

    type Value = Seq<Atom>;

    ghost Params = { ℕ };

    ghost What = { MetricKey × EventAtom };

    ghost Key = { MetricKey };

    ghost Share = { EventAtom };

    ghost law = { event_law };

    fn event(&mut self, at: u64, ev: Atom) -> Result<(), AllocError> {
        let row = row_of(self.memory.alloc(), at, ev)?;
        self.kept.put(row)
    }

    fn condition(&mut self, at: u64, now: ()) -> Result<(), AllocError> {
        let _at = at;
        let _now = now;
        let _self = &*self;
        Ok(())
    }

    // There are no buckets, so no frame crosses an end.
    fn cross(&mut self, crossings: Crossings) -> Result<(), AllocError> {
        let _crossings = crossings;
        let _self = &*self;
        Ok(())
    }

    // There is no open part that a report could cut.
    fn cut(&mut self, at: u64) -> Result<(), AllocError> {
        let _at = at;
        let _self = &*self;
        Ok(())
    }

    fn take(&mut self) -> Closed<Seq<Atom>> {
        let (rows, not_kept) = self.kept.take();
        Closed {
            rows,
            not_kept,
            dropped: 0,
            missing: 0,
        }
    }
}
