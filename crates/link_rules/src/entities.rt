//! What is judged one by one: matchers, predicates, states, and metrics of all kinds in one list.
ghost use Rattle.std.specs.Prelude.{◌≡◌, ◌++◌, map, IfOk, OnOk, OnErr};
ghost use Rattle.link_rules.specs.Entities.{entities_of, metric_of_event, metric_of_count, metric_of_value, metric_of_gauge, metric_of_duration};

use config_types::{
    Aggregation, AlertDef, Common, Config, CountDef, Direction, DurationDef, EventDef,
    FieldMatcher, GaugeDef, MatcherDef, PredicateDef, SamplingType, Sliced, StateDef, ValueDef,
};
use sd_base::Seq;
use std::alloc::{AllocError, Global};

/// A metric of any kind. An event metric has no dimensions, no bound and no slices.
#[derive(Debug, Drop)]
pub struct Metric {
    pub common: Common,
    pub sliced: Sliced,
    pub kind: Kind,
}

/// What a kind of metric has of its own.
#[derive(Debug, Drop)]
pub enum Kind {
    Event,
    Count { overflow: bool },
    Value(ValueParts),
    Gauge(GaugeParts),
    Duration { max_sparse: bool },
}

#[derive(Debug, Drop)]
pub struct ValueParts {
    pub field: Option<FieldMatcher>,
    pub agg: Aggregation,
    pub abs_reset: bool,
    pub diff: Option<bool>,
    pub direction: Direction,
    pub skip_zero: bool,
    pub zero_base: bool,
}

#[derive(Debug, Drop)]
pub struct GaugeParts {
    pub include_all: bool,
    pub fields: Option<FieldMatcher>,
    pub sampling: SamplingType,
    pub max_samples: Option<i64>,
    pub trigger: Option<i64>,
}

/// A configuration whose metrics stand in one list: events, counts, values, gauges, durations.
#[derive(Debug, Drop)]
pub struct Entities {
    pub matchers: Seq<MatcherDef>,
    pub predicates: Seq<PredicateDef>,
    pub states: Seq<StateDef>,
    pub metrics: Seq<Metric>,
    pub no_report: Seq<i64>,
    pub alerts: Seq<AlertDef>,
}

/// A definition of one kind of metric.
trait MetricDef: Drop {
    ghost use Rattle.link_rules.specs.declared.entities.Metric.{Metric};

    /// The metric that it defines.
    ghost metric: { Self → Metric };

    fn into_metric(self, alloc: Global) -> Metric
        ensures { result ≡ metric self };
}

impl MetricDef for EventDef {
    ghost metric = { metric_of_event };

    fn into_metric(self, alloc: Global) -> Metric {
        let sliced = Sliced {
            dims: None,
            bucket: None,
            bound: None,
            slices: Seq::new(alloc),
            state_links: Seq::new(alloc),
        };
        Metric {
            common: self.common,
            sliced,
            kind: Kind::Event,
        }
    }
}

impl MetricDef for CountDef {
    ghost metric = { metric_of_count };

    fn into_metric(self, _alloc: Global) -> Metric {
        Metric {
            common: self.common,
            sliced: self.sliced,
            kind: Kind::Count {
                overflow: self.overflow,
            },
        }
    }
}

impl MetricDef for ValueDef {
    ghost metric = { metric_of_value };

    fn into_metric(self, _alloc: Global) -> Metric {
        let parts = ValueParts {
            field: self.field,
            agg: self.agg,
            abs_reset: self.abs_reset,
            diff: self.diff,
            direction: self.direction,
            skip_zero: self.skip_zero,
            zero_base: self.zero_base,
        };
        Metric {
            common: self.common,
            sliced: self.sliced,
            kind: Kind::Value(parts),
        }
    }
}

impl MetricDef for GaugeDef {
    ghost metric = { metric_of_gauge };

    fn into_metric(self, _alloc: Global) -> Metric {
        let parts = GaugeParts {
            include_all: self.include_all,
            fields: self.fields,
            sampling: self.sampling,
            max_samples: self.max_samples,
            trigger: self.trigger,
        };
        Metric {
            common: self.common,
            sliced: self.sliced,
            kind: Kind::Gauge(parts),
        }
    }
}

impl MetricDef for DurationDef {
    ghost metric = { metric_of_duration };

    fn into_metric(self, _alloc: Global) -> Metric {
        Metric {
            common: self.common,
            sliced: self.sliced,
            kind: Kind::Duration {
                max_sparse: self.max_sparse,
            },
        }
    }
}

/// Moves the metrics of one kind after others.
fn append<D: MetricDef>(
    alloc: Global,
    metrics: &mut Seq<Metric>,
    defs: Seq<D>,
) -> Result<(), AllocError>
    ensures { OnOk result (metrics.new ≡ metrics.old ++ map D.metric defs) }
{
    for def in defs.into_vec() {
        metrics.push(def.into_metric(alloc))?;
    }
    Ok(())
}

/// The same configuration with one list of metrics.
pub fn gather(alloc: Global, config: Config) -> Result<Entities, AllocError>
    ensures { IfOk result (λ entities. entities ≡ entities_of config) }
{
    let mut metrics = Seq::new(alloc);
    append(alloc, &mut metrics, config.events)?;
    append(alloc, &mut metrics, config.counts)?;
    append(alloc, &mut metrics, config.values)?;
    append(alloc, &mut metrics, config.gauges)?;
    append(alloc, &mut metrics, config.durations)?;
    Ok(Entities {
        matchers: config.matchers,
        predicates: config.predicates,
        states: config.states,
        metrics,
        no_report: config.no_report,
        alerts: config.alerts,
    })
}
