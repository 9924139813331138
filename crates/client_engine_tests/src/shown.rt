//! A report's tree as text.
use atom_record::{Bytes, Slice, Value};
use report_writer::{AlarmTree, LeafTree, MetricBody, MetricTree, NumTree, ReportTree};
use std::alloc::{AllocError, Global};

/// A report as text: `LAST..NOW`, and for each metric ` | ID BASE SIZE`, what it didn't show, and for each key
/// ` [LEAVES] {ATOM=STATE} START-END=COUNT ..`, a group as `ATOM:GROUP`; and then ` | ATOM lost COUNT` for each atom of
/// states, and what of ids; ` | alarm ID TIME SUM [LEAVES] {ATOM=STATE}` for each alarm, and ` | ID unlisted COUNT`.
/// A leaf that is missing is `-`.
pub fn text_of(alloc: Global, tree: &ReportTree) -> Result<String, AllocError> {
    let mut text = String::new(alloc);
    write!(text, "{}..{}", tree.last, tree.now)?;
    for metric in tree.metrics.as_slice() {
        push_metric(&mut text, metric)?;
    }
    for drop in tree.state_drops.as_slice() {
        write!(text, " | {} lost {}", drop.id, drop.number)?;
    }
    push_count(&mut text, "| ids lost", tree.state_atoms_dropped)?;
    for alarm in tree.alarms.as_slice() {
        push_alarm(&mut text, alarm)?;
    }
    for unlisted in tree.alarms_not_kept.as_slice() {
        write!(text, " | {} unlisted {}", unlisted.id, unlisted.number)?;
    }
    Ok(text)
}

fn push_metric(text: &mut String, metric: &MetricTree) -> Result<(), AllocError> {
    write!(text, " | {} {} {}", metric.id, metric.base, metric.size)?;
    push_count(text, "dropped", metric.dropped)?;
    push_count(text, "not kept", metric.not_kept)?;
    push_count(text, "missing", metric.missing)?;
    match &metric.body {
        MetricBody::Counts(keys) => push_keys(text, keys.as_slice()),
        _ => text.push_str(" of another kind"),
    }
}

/// Puts a count that is above 0.
fn push_count(text: &mut String, name: &str, count: u64) -> Result<(), AllocError> {
    if count == 0 {
        return Ok(());
    }
    write!(text, " {name} {count}")
}

fn push_keys(text: &mut String, keys: &[NumTree]) -> Result<(), AllocError> {
    for key in keys {
        push_key(text, key)?;
    }
    Ok(())
}

fn push_alarm(text: &mut String, alarm: &AlarmTree) -> Result<(), AllocError> {
    write!(text, " | alarm {} {} {}", alarm.id, alarm.at, alarm.sum)?;
    push_leaves(text, alarm.leaves.as_slice())?;
    push_slices(text, alarm.slices.as_slice())
}

fn push_key(text: &mut String, key: &NumTree) -> Result<(), AllocError> {
    push_leaves(text, key.leaves.as_slice())?;
    push_slices(text, key.slices.as_slice())?;
    for bucket in key.buckets.as_slice() {
        write!(text, " {}-{}={}", bucket.start, bucket.end, bucket.value)?;
    }
    Ok(())
}

fn push_slices(text: &mut String, slices: &[Slice]) -> Result<(), AllocError> {
    for slice in slices {
        push_slice(text, slice)?;
    }
    Ok(())
}

fn push_slice(text: &mut String, slice: &Slice) -> Result<(), AllocError> {
    match slice {
        Slice::Plain { atom_id, value } => write!(text, " {{{atom_id}={value}}}"),
        Slice::Group { atom_id, group } => write!(text, " {{{atom_id}:{group}}}"),
    }
}

fn push_leaves(text: &mut String, leaves: &[LeafTree]) -> Result<(), AllocError> {
    text.push_str(" [")?;
    for leaf in leaves {
        write!(text, "{}:", leaf.place)?;
        push_value(text, &leaf.value)?;
    }
    text.push_str("]")
}

fn push_value(text: &mut String, value: &Option<Value>) -> Result<(), AllocError> {
    match value {
        None => text.push_str("-"),
        Some(Value::Int(number)) => write!(text, "{number}"),
        Some(Value::Str(bytes)) => push_letters(text, bytes),
        _ => text.push_str("another"),
    }
}

fn push_letters(text: &mut String, bytes: &Bytes) -> Result<(), AllocError> {
    for byte in bytes.as_slice() {
        text.push(char::from(*byte))?;
    }
    Ok(())
}
