//! What a report shows of durations.
ghost use Rattle.std.specs.Prelude.{◌≡◌, IfOk};
ghost use Rattle.metric_meaning.specs.KeyTrees.{key_tree};
ghost use Rattle.client_engine.specs.DurationsShown.{durations_shown_by, shown_time, time_entry};

use crate::groups::{RowShape, groups_of};
use crate::kinds::counts::MOST_SHOWN;
use crate::leaves::leaves_of;
use atom_record::MetricKey;
use config_links::LMetric;
use metric_producer::Closed;
use report_writer::{MetricBody, MetricTree, NumBucket, NumTree};
use sd_base::Seq;
use std::alloc::{AllocError, Global};

/// Times, as a report shows them.
struct TimeRows;

impl RowShape for TimeRows {
    ghost use Rattle.atom_record.specs.Equal.{metric_key_exact};

    type Value = u64;

    type Group = MetricKey;

    type Bucket = NumBucket;

    type Tree = NumTree;

    ghost group_of = { λ key value. key };

    ghost exact = { metric_key_exact };

    ghost bucket = { shown_time };

    ghost tree = { key_tree time_entry };

    fn group_of(key: MetricKey, _value: &u64) -> MetricKey {
        key
    }

    fn bucket(_alloc: Global, start: u64, end: u64, value: u64) -> Result<NumBucket, AllocError> {
        Ok(NumBucket {
            start,
            end,
            value: value.min(MOST_SHOWN) as i64,
        })
    }

    fn tree(alloc: Global, group: MetricKey, buckets: Seq<NumBucket>) -> Result<NumTree, AllocError>
        ensures { IfOk result (λ shown. shown ≡ key_tree time_entry group buckets) }
    {
        let MetricKey { dims, slices } = group;
        let leaves = leaves_of(alloc, dims)?;
        Ok(NumTree {
            leaves,
            slices,
            overflow: false,
            buckets,
        })
    }
}

/// A metric of durations, with what a report shows of it.
pub fn durations_tree(
    alloc: Global,
    base: u64,
    metric: &LMetric,
    closed: Closed<u64>,
) -> Result<MetricTree, AllocError>
    ensures { IfOk result (λ tree. tree ≡ durations_shown_by base metric.now closed) }
{
    let groups = groups_of::<TimeRows>(alloc, closed.rows)?;
    Ok(MetricTree {
        id: metric.id,
        base,
        size: metric.size,
        dropped: closed.dropped,
        not_kept: closed.not_kept,
        missing: closed.missing,
        body: MetricBody::Durations(groups),
    })
}
