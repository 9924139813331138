//! Metrics: their rows by kind, and what they didn't show.
ghost use Rattle.std.specs.Prelude.{◌≡◌, ◌++◌, OnOk};
ghost use Rattle.report_writer.specs.ReportSpelling.{rows_field, size_field, unshown_fields};
ghost use Rattle.report_writer.specs.Writable.{AreWritableRows};

use crate::message::{Message, put_if_above, put_signed, put_wrapped};
use crate::numbers;
use crate::tree::{MetricBody, MetricTree};
use proto_wire::Writer;
use std::alloc::AllocError;

// Adds the rows of a metric, in a field by its kind.
fn put_rows(out: &mut Writer, body: &MetricBody) -> Result<(), AllocError>
    requires { AreWritableRows body.now }
    ensures { OnOk result (out.new ≡ out.old ++ rows_field body.now) }
{
    match body {
        MetricBody::Events(rows) => put_wrapped(out, numbers::SHOWN_EVENTS, rows.as_slice()),
        MetricBody::Counts(rows) => put_wrapped(out, numbers::SHOWN_COUNTS, rows.as_slice()),
        MetricBody::Durations(rows) => {
            put_wrapped(out, numbers::SHOWN_DURATIONS, rows.as_slice())
        }
        MetricBody::Values(rows) => put_wrapped(out, numbers::SHOWN_VALUES, rows.as_slice()),
        MetricBody::Gauges(rows) => put_wrapped(out, numbers::SHOWN_GAUGES, rows.as_slice()),
    }
}

// Adds how long a bucket is, but for an event metric, which has none.
fn put_size(out: &mut Writer, body: &MetricBody, size: u64) -> Result<(), AllocError>
    ensures { OnOk result (out.new ≡ out.old ++ size_field body.now size) }
{
    match body {
        MetricBody::Events(_) => Ok(()),
        MetricBody::Counts(_)
        | MetricBody::Durations(_)
        | MetricBody::Values(_)
        | MetricBody::Gauges(_) => out.varint_field(numbers::SHOWN_SIZE, size),
    }
}

// Adds what a metric didn't show.
fn put_unshown(out: &mut Writer, metric: &MetricTree) -> Result<(), AllocError>
    ensures { OnOk result (out.new ≡ out.old ++ unshown_fields metric.now) }
{
    put_if_above(out, numbers::SHOWN_DROPPED, metric.dropped)?;
    put_if_above(out, numbers::SHOWN_NOT_KEPT, metric.not_kept)?;
    put_if_above(out, numbers::SHOWN_MISSING, metric.missing)
}

impl Message for MetricTree {
    ghost use Rattle.report_writer.specs.ReportSpelling.{metric_message};
    ghost use Rattle.report_writer.specs.Writable.{IsWritableMetric};

    ghost spelled = { metric_message };

    ghost is_writable = { IsWritableMetric };

    #[tactic(auto, unfolding(crate::specs::ReportSpelling::metric_message))]
    fn put_fields(&self, out: &mut Writer) -> Result<(), AllocError> {
        put_signed(out, numbers::SHOWN_ID, self.id)?;
        put_rows(out, &self.body)?;
        out.varint_field(numbers::SHOWN_BASE, self.base)?;
        put_size(out, &self.body, self.size)?;
        put_unshown(out, self)
    }
}
