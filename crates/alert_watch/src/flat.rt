//! The flat form of alarms and of watches.
ghost use Rattle.std.proofs.Common.{refl};
ghost use Rattle.std.specs.Prelude.{◌≡◌, ◌++◌, length, All, OnOk, OnErr};
ghost use Rattle.std.specs.List.{flat_map};
ghost use Rattle.flat_form.specs.Flat.{IsFront, list_items};
ghost use Rattle.alert_watch.specs.WatchItems.{alarm_items, key_count_items, window_part_items, window_rows, watch_list_items, FitsPartTable};

use crate::restored::{Saved, numbers_of, restore};
use crate::window::KeyCounts;
use crate::{Alarm, AlertWatch};
use atom_record::MetricKey;
use flat_form::{Flat, FlatError, Items};
use std::alloc::{AllocError, Global};

impl Flat for Alarm {
    ghost use Rattle.flat_form.specs.Bounded.{short_head, none_few};
    ghost use Rattle.alert_watch.specs.WatchItems.{alarm_items, IsShortAlarm};
    ghost use Rattle.alert_watch.specs.WatchItemLaws.{alarm_bounded, alarm_savable};

    ghost flat = { alarm_items };

    ghost savable = { IsShortAlarm };

    ghost head = { 4 };

    ghost short = { short_head 4 refl };

    ghost bounded = { alarm_bounded };

    ghost few = { none_few alarm_items };

    ghost spells = { alarm_savable };

    fn show_valid(&self) {}

    fn flatten(&self, alloc: Global, out: &mut Items) -> Result<(), AllocError> {
        (self.at, self.sum).flatten(alloc, out)?;
        self.key.flatten(alloc, out)
    }

    fn build(alloc: Global, items: &Items, place: usize) -> Result<(Alarm, usize), FlatError> {
        let (form, next) = <((u64, u64), MetricKey)>::build(alloc, items, place)?;
        let ((at, sum), key) = form;
        Ok((Alarm { at, sum, key }, next))
    }
}

// Adds the items of a key and its number.
fn flatten_row(
    key: &MetricKey,
    number: &u64,
    alloc: Global,
    out: &mut Items,
) -> Result<(), AllocError>
    ensures added { OnOk result (out.new ≡ out.old ++ key_count_items (key.now, number.now)) }
    ensures err { OnErr result (IsFront out.old out.new) }
{
    key.flatten(alloc, out)?;
    number.flatten(alloc, out)
}

// Adds the items of all rows of a table.
fn flatten_rows(table: &KeyCounts, alloc: Global, out: &mut Items) -> Result<(), AllocError>
    ensures added { OnOk result (out.new ≡ out.old ++ flat_map key_count_items table.now.rows) }
    ensures err { OnErr result (IsFront out.old out.new) }
{
    let count = table.len();
    for place in 0..count {
        let Some((key, number)) = table.pair(place) else {
            return Ok(());
        };
        flatten_row(key, number, alloc, out)?;
    }
    Ok(())
}

// Adds the items of a part.
fn flatten_table(table: &KeyCounts, alloc: Global, out: &mut Items) -> Result<(), AllocError>
    ensures added { OnOk result (out.new ≡ out.old ++ window_part_items table.now.rows) }
    ensures err { OnErr result (IsFront out.old out.new) }
{
    (table.len() as u64).flatten(alloc, out)?;
    flatten_rows(table, alloc, out)
}

// Adds the items of all parts.
fn flatten_tables(tables: &[KeyCounts], alloc: Global, out: &mut Items) -> Result<(), AllocError>
    ensures added { OnOk result
        (out.new ≡ out.old ++ flat_map (λ table. window_part_items table.rows) tables.now) }
    ensures err { OnErr result (IsFront out.old out.new) }
{
    for table in tables {
        flatten_table(table, alloc, out)?;
    }
    Ok(())
}

// Adds the items of all alarms.
fn flatten_alarms(alarms: &[Alarm], alloc: Global, out: &mut Items) -> Result<(), AllocError>
    ensures added { OnOk result (out.new ≡ out.old ++ flat_map alarm_items alarms.now) }
    ensures err { OnErr result (IsFront out.old out.new) }
{
    for alarm in alarms {
        alarm.flatten(alloc, out)?;
    }
    Ok(())
}

// Adds the items of a window.
fn flatten_window(tables: &[KeyCounts], alloc: Global, out: &mut Items) -> Result<(), AllocError>
    ensures added { OnOk result
        (out.new ≡ out.old ++ list_items window_part_items (window_rows tables.now)) }
    ensures err { OnErr result (IsFront out.old out.new) }
{
    (tables.len() as u64).flatten(alloc, out)?;
    flatten_tables(tables, alloc, out)
}

// Adds the items of the alarms that are listed.
fn flatten_listed(alarms: &[Alarm], alloc: Global, out: &mut Items) -> Result<(), AllocError>
    ensures added { OnOk result (out.new ≡ out.old ++ list_items alarm_items alarms.now) }
    ensures err { OnErr result (IsFront out.old out.new) }
{
    (alarms.len() as u64).flatten(alloc, out)?;
    flatten_alarms(alarms, alloc, out)
}

// Adds the items of both.
fn flatten_lists(
    tables: &[KeyCounts],
    alarms: &[Alarm],
    alloc: Global,
    out: &mut Items,
) -> Result<(), AllocError>
    ensures added { OnOk result
        (out.new ≡ out.old ++ watch_list_items tables.now alarms.now) }
    ensures err { OnErr result (IsFront out.old out.new) }
{
    flatten_window(tables, alloc, out)?;
    flatten_listed(alarms, alloc, out)
}

// The rows of a table are those that a table may have.
fn show_table(table: &KeyCounts)
    ensures { FitsPartTable table.now.bound table.now.rows }
{
    let _len = table.len();
}

// The rows of each are.
fn show_tables(tables: &[KeyCounts])
    ensures { All (λ table. FitsPartTable table.bound table.rows) tables.now }
{
    for table in tables {
        show_table(table);
    }
}

impl Flat for AlertWatch {
    ghost use Rattle.flat_form.specs.Bounded.{short_head};
    ghost use Rattle.alert_watch.specs.WatchItems.{watch_items, IsWholeWatch, IsSavableWatch, watch_entries};
    ghost use Rattle.alert_watch.specs.WatchItemLaws.{watch_bounded, watch_few, watch_savable};

    ghost flat = { watch_items };

    ghost valid = { IsWholeWatch };

    ghost savable = { IsSavableWatch };

    ghost head = { 19 };

    ghost short = { short_head 19 refl };

    ghost entries = { watch_entries };

    ghost bounded = { watch_bounded };

    ghost few = { watch_few };

    ghost spells = { watch_savable };

    fn show_valid(&self) {
        show_tables(self.tables.as_slice());
    }

    fn flatten(&self, alloc: Global, out: &mut Items) -> Result<(), AllocError> {
        self.show_valid();
        let head = (numbers_of(self.spec), (self.last, self.not_kept));
        head.flatten(alloc, out)?;
        flatten_lists(self.tables.as_slice(), self.listed.as_slice(), alloc, out)
    }

    fn build(alloc: Global, items: &Items, place: usize) -> Result<(AlertWatch, usize), FlatError> {
        let (saved, next) = Saved::build(alloc, items, place)?;
        let watch = restore(alloc, saved)?;
        Ok((watch, next))
    }
}
