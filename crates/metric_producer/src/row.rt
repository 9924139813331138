//! What a metric hands out for a report.

use atom_record::MetricKey;
use sd_base::Seq;
use std::marker::Model;

/// What one key of a metric has in a part of its time.
#[derive(Drop, PartialEq)]
pub struct Row<V> {
    /// The key, by which a report groups the rows.
    pub key: MetricKey,
    /// Where the part began. Times are in nanoseconds.
    pub start: u64,
    /// Where the part ended.
    pub end: u64,
    /// What the key's arrivals in the part give.
    pub value: V,
}

/// What a row of a metric that counts holds.
#[derive(Clone, Copy, PartialEq)]
pub struct CountCell {
    /// The number of arrivals.
    pub number: u64,
    /// Whether it is an overflow row, which gathers the arrivals whose keys found no room.
    pub overflow: bool,
}

/// What a metric closed, dropped and missed since its last report. A contract sees what the report shows.
#[derive(Drop)]
pub struct Closed<V> {
    /// The kept rows, in the order in which they were closed.
    pub rows: Seq<Row<V>>,
    /// How many other rows were closed. Each count stands still at the end of its type.
    pub not_kept: u64,
    /// How many arrivals were dropped, since their keys found no room.
    pub dropped: u64,
    /// How often a snapshot was wanted and there was none.
    pub missing: u64,
}

impl<V> Model for Closed<V> {
    ghost use Rattle.bucket_meaning.specs.Kept.{Taken};
    ghost use Rattle.metric_producer.specs.declared.row.Row.{Row};

    ghost Value = { Taken (Row V) };

    ghost view = { λ c. record {
      rows = c.rows;
      not_kept = c.not_kept;
      dropped = c.dropped;
      missing = c.missing;
    } };
}
