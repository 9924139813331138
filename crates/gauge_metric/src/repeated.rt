//! The rows of full buckets that each have the samples of the open part.
ghost use Rattle.std.specs.Prelude.{◌≡◌, OnOk, IfOk};
ghost use Rattle.gauge_metric.specs.GaugeStands.{sample_row, AddsSampled};
ghost use Rattle.gauge_metric.specs.PulledStands.{KeepsAgain};

use crate::Row;
use atom_record::{Atom, MetricKey};
use bucket_clock::Crossings;
use dim_table::Guarded;
use kept_rows::KeptRows;
use sd_base::{Duplicate, Seq};
use std::alloc::{AllocError, Global};

/// Keeps the rows of the full buckets of a crossing, each with these samples, while they fit, and counts the others.
pub(crate) fn keep_again(
    kept: &mut KeptRows<Row<Seq<Atom>>>,
    alloc: Global,
    table: &Guarded<MetricKey, Seq<Atom>>,
    crossings: Crossings,
) -> Result<(), AllocError>
    ensures { OnOk result (KeepsAgain kept.old kept.new table.now.rows crossings) }
{
    if table.is_empty() {
        return Ok(());
    }
    let mut start = crossings.first_end;
    for done in 0..crossings.full_buckets {
        if kept.is_full() {
            let left = crossings.full_buckets - done;
            kept.pass(left.saturating_mul(table.len() as u64));
            return Ok(());
        }
        let end = start.saturating_add(crossings.size);
        keep_copies(kept, alloc, table, start, end)?;
        start = end;
    }
    Ok(())
}

// Keeps a row for each key and its samples, in order, or counts it. The samples stay.
fn keep_copies(
    kept: &mut KeptRows<Row<Seq<Atom>>>,
    alloc: Global,
    table: &Guarded<MetricKey, Seq<Atom>>,
    start: u64,
    end: u64,
) -> Result<(), AllocError>
    ensures { OnOk result (AddsSampled start end table.now.rows kept.old kept.new) }
{
    let count = table.len();
    for place in 0..count {
        let Some((key, atoms)) = table.pair(place) else {
            return Ok(());
        };
        let row = copied_row(alloc, start, end, key, atoms)?;
        kept.put(row)?;
    }
    Ok(())
}

// The row of a key and its samples, as copies.
fn copied_row(
    alloc: Global,
    start: u64,
    end: u64,
    key: &MetricKey,
    atoms: &Seq<Atom>,
) -> Result<Row<Seq<Atom>>, AllocError>
    ensures { IfOk result (λ row. row ≡ sample_row start end (key.now, atoms.now)) }
{
    let key = key.duplicate(alloc)?;
    let value = atoms.duplicate(alloc)?;
    Ok(Row {
        key,
        start,
        end,
        value,
    })
}
