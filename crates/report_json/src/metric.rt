//! A metric as JSON, with its rows by its kind.
ghost use Rattle.std.specs.Prelude.{◌≡◌, ◌∷◌, ◌++◌, IfOk, OnOk, codes};
ghost use Rattle.json.specs.Token.{key};
ghost use Rattle.serde_json.specs.View.{view};
ghost use Rattle.report_json.specs.ReportJson as as_json;
ghost use Rattle.report_json.specs.Tokens.{tokens_of};

use crate::shown::{Shown, array_of, write_member};
use crate::text::Text;
use report_writer::{MetricBody, MetricTree};
use serde_json::{Value, json};
use std::alloc::{AllocError, Global};

// The kind of a metric.
fn kind_of(body: &MetricBody) -> &'static str
    ensures { result.now ≡ as_json.kind_of_metric body.now }
{
    match body {
        MetricBody::Events(_) => "event",
        MetricBody::Counts(_) => "count",
        MetricBody::Durations(_) => "duration",
        MetricBody::Values(_) => "value",
        MetricBody::Gauges(_) => "gauge",
    }
}

// The rows of a metric.
fn rows_value(alloc: Global, body: &MetricBody) -> Result<Value, AllocError>
    ensures { IfOk result (λ value. view value ≡ as_json.rows_json body.now) }
{
    match body {
        MetricBody::Events(rows) => array_of(alloc, rows.as_slice()),
        MetricBody::Counts(rows) | MetricBody::Durations(rows) | MetricBody::Values(rows) => {
            array_of(alloc, rows.as_slice())
        }
        MetricBody::Gauges(rows) => array_of(alloc, rows.as_slice()),
    }
}

// Adds a member with the rows of a metric.
fn write_rows(out: &mut Text, body: &MetricBody) -> Result<(), AllocError>
    ensures { OnOk result
        (out.new ≡ out.old ++ key (codes "rows") ∷ tokens_of (as_json.rows_json body.now)) }
{
    match body {
        MetricBody::Events(rows) => write_member(out, "rows", rows.as_slice()),
        MetricBody::Counts(rows) | MetricBody::Durations(rows) | MetricBody::Values(rows) => {
            write_member(out, "rows", rows.as_slice())
        }
        MetricBody::Gauges(rows) => write_member(out, "rows", rows.as_slice()),
    }
}

impl Shown for MetricTree {
    ghost use Rattle.report_json.specs.ReportJson.{metric_json};

    ghost shown = { metric_json };

    fn json(&self, alloc: Global) -> Result<Value, AllocError> {
        let rows = rows_value(alloc, &self.body)?;
        json!(in alloc; {
            "base": self.base,
            "dropped": self.dropped,
            "id": self.id,
            "kind": kind_of(&self.body),
            "missing": self.missing,
            "not_kept": self.not_kept,
            "rows": rows,
            "size": self.size
        })
    }

    fn write(&self, out: &mut Text) -> Result<(), AllocError> {
        out.open_object()?;
        out.whole_member("base", self.base)?;
        out.whole_member("dropped", self.dropped)?;
        out.integer_member("id", self.id)?;
        out.string_member("kind", kind_of(&self.body))?;
        out.whole_member("missing", self.missing)?;
        out.whole_member("not_kept", self.not_kept)?;
        write_rows(out, &self.body)?;
        out.whole_member("size", self.size)?;
        out.close_object()
    }
}
