//! Which trees may be written, as a test before a tree is written.
ghost use Rattle.std.specs.Prelude.{◌≡◌, ◌↔◌, ◌≤◌, ◌<◌, All, IsTrue};
ghost use Rattle.report_writer.specs.Writable.{IsFieldNumber, AreNumbered, IsWritableAtom, IsWritableBucket, IsWritableRow, IsWritableEvent, IsWritableMetric};

use report_writer::{
    AtomBucket, AtomMsg, EventTree, GaugeTree, MetricBody, MetricTree, Part, ReportTree, write,
};
use std::alloc::{AllocError, Global};

fn is_field_number(number: u32) -> bool
    ensures { IsTrue result ↔ IsFieldNumber number }
{
    0 < number && number < 1 << 29
}

fn are_numbered(parts: &[Part]) -> bool
    ensures { IsTrue result → AreNumbered parts.now }
{
    parts.iter().all(|part| is_field_number(part.number))
}

fn is_writable_atom(atom: &AtomMsg) -> bool
    ensures { IsTrue result → IsWritableAtom atom.now }
{
    is_field_number(atom.id) && are_numbered(atom.parts.as_slice())
}

fn is_writable_bucket(bucket: &AtomBucket) -> bool
    ensures { IsTrue result → IsWritableBucket bucket.now }
{
    bucket
        .atoms
        .as_slice()
        .iter()
        .all(|atom| is_writable_atom(atom))
}

fn is_writable_row(row: &GaugeTree) -> bool
    ensures { IsTrue result → IsWritableRow row.now }
{
    row.buckets
        .as_slice()
        .iter()
        .all(|bucket| is_writable_bucket(bucket))
}

fn are_writable_rows(rows: &[GaugeTree]) -> bool
    ensures { IsTrue result → All IsWritableRow rows.now }
{
    rows.iter().all(|row| is_writable_row(row))
}

fn are_writable_events(rows: &[EventTree]) -> bool
    ensures { IsTrue result → All IsWritableEvent rows.now }
{
    rows.iter().all(|row| is_writable_atom(&row.atom))
}

fn is_writable_metric(metric: &MetricTree) -> bool
    ensures { IsTrue result → IsWritableMetric metric.now }
{
    match &metric.body {
        MetricBody::Events(rows) => are_writable_events(rows.as_slice()),
        MetricBody::Gauges(rows) => are_writable_rows(rows.as_slice()),
        MetricBody::Counts(_) | MetricBody::Durations(_) | MetricBody::Values(_) => true,
    }
}

fn is_writable(metrics: &[MetricTree]) -> bool
    ensures { IsTrue result → All IsWritableMetric metrics.now }
{
    metrics.iter().all(|metric| is_writable_metric(metric))
}

/// The bytes of a tree, none where it may not be written.
pub fn bytes_of(alloc: Global, tree: &ReportTree) -> Result<Option<Vec<u8>>, AllocError> {
    if !is_writable(tree.metrics.as_slice()) {
        return Ok(None);
    }
    Ok(Some(write(alloc, tree)?))
}
