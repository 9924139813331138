//! A watch of what was saved of one.
ghost use Rattle.std.specs.Prelude.{◌≡◌, ◌≤◌, IsTrue, ◌↔◌};
ghost use Rattle.bucket_meaning.specs.Limits.{most_keys};
ghost use Rattle.config_types.specs.AlertSpecs.{IsAlertSpec};
ghost use Rattle.alert_watch.specs.WatchItems.{alert_with, alert_numbers, BuildsAlert, BuildsTable, BuildsTables, BuildsWatch};

use crate::window::KeyCounts;
use crate::{Alarm, AlertWatch, MAX_ALARMS};
use atom_record::MetricKey;
use config_types::{AlertSpec, MAX_PARTS, MAX_REFRACTORY, MAX_THRESHOLD};
use dim_table::{Guarded, MAX_KEYS};
use flat_form::FlatError;
use sd_base::Seq;
use std::alloc::Global;

/// The keys of a part, each with its number.
type Rows = Seq<(MetricKey, u64)>;

/// The bound and the parts of an alert, and its threshold and refractory time.
type Numbers = ((u64, u64), (u64, u64));

/// Its numbers; when its last alarm came; how many alarms aren't listed; its parts; and the alarms that are listed.
pub(crate) type Saved = (Numbers, (Option<u64>, (u64, (Seq<Rows>, Seq<Alarm>))));

/// The numbers of an alert.
pub(crate) fn numbers_of(spec: AlertSpec) -> Numbers
    ensures { result ≡ alert_numbers spec }
{
    let window = (u64::from(spec.bound), u64::from(spec.parts));
    (window, (spec.threshold, spec.refractory))
}

// Whether an alert may have these numbers.
fn are_in_range(numbers: Numbers) -> bool
    ensures { IsTrue result ↔ IsAlertSpec (alert_with numbers) }
{
    let ((bound, parts), (threshold, refractory)) = numbers;
    1 <= bound
        && bound <= MAX_KEYS as u64
        && 1 <= parts
        && parts <= u64::from(MAX_PARTS)
        && threshold <= MAX_THRESHOLD
        && refractory <= MAX_REFRACTORY
}

// The alert with these numbers, or none where no alert may have them.
fn alert_of(numbers: Numbers) -> Option<AlertSpec>
    ensures { BuildsAlert numbers result }
{
    if !are_in_range(numbers) {
        return None;
    }
    let ((bound, parts), (threshold, refractory)) = numbers;
    Some(AlertSpec {
        bound: bound as u32,
        parts: parts as u32,
        threshold,
        refractory,
    })
}

// The table of a part with these rows, or `Bad` where no table may have them.
fn table_of(alloc: Global, bound: usize, rows: Rows) -> Result<KeyCounts, FlatError>
    requires least { 1 ≤ bound }
    requires most { bound ≤ most_keys }
    ensures { BuildsTable bound rows result }
{
    let count = rows.len();
    let mut table = Guarded::new(alloc, bound);
    for (key, number) in rows.into_vec() {
        table.admit(key, number)?;
    }
    if table.len() != count {
        return Err(FlatError::Bad);
    }
    Ok(table)
}

// The tables of the parts of a window.
fn tables_of(alloc: Global, bound: usize, parts: Seq<Rows>) -> Result<Seq<KeyCounts>, FlatError>
    requires least { 1 ≤ bound }
    requires most { bound ≤ most_keys }
    ensures { BuildsTables bound parts result }
{
    let mut tables = Seq::new(alloc);
    for rows in parts.into_vec() {
        let table = table_of(alloc, bound, rows)?;
        tables.push(table)?;
    }
    Ok(tables)
}

/// The watch of which this was saved, or `Bad` where it was saved of none.
pub(crate) fn restore(alloc: Global, saved: Saved) -> Result<AlertWatch, FlatError>
    ensures { BuildsWatch saved result }
{
    let (numbers, (last, (not_kept, (parts, listed)))) = saved;
    let Some(spec) = alert_of(numbers) else {
        return Err(FlatError::Bad);
    };
    if parts.len() != spec.parts as usize || listed.len() > MAX_ALARMS {
        return Err(FlatError::Bad);
    }
    let tables = tables_of(alloc, spec.bound as usize, parts)?;
    Ok(AlertWatch {
        spec,
        tables: tables.into_vec(),
        last,
        listed: listed.into_vec(),
        not_kept,
        alloc,
    })
}
