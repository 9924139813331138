//! Metrics.
ghost use Rattle.std.specs.Prelude.{◌≡◌, IfOk};
ghost use Rattle.config_decode.specs.FieldNumbers.{gauge_fields_filter};
ghost use Rattle.config_decode.specs.Metrics as metrics;
ghost use Rattle.config_decode.specs.Values as values;

use crate::message::Message;
use crate::numbers;
use crate::profile::Kind;
use crate::scalar::Runs;
use crate::tree::{FromMessage, listed, optional, repeated};
use config_types::{
    ActivationDef, Aggregation, Common, CountDef, Direction, DurationDef, EventDef, FieldMatcher,
    GaugeDef, LinkDef, SamplingType, Sliced, StateLinkDef, ValueDef,
};
use sd_base::Seq;
use std::alloc::{AllocError, Global};

impl FromMessage for LinkDef {
    ghost use Rattle.config_decode.specs.Metrics.{link_of};

    ghost tree = { link_of };

    fn from_message(alloc: Global, message: &Message<'_>) -> Result<LinkDef, AllocError> {
        Ok(LinkDef {
            condition: message.read_scalar(numbers::CONDITION_LINK_CONDITION),
            in_what: optional(alloc, message, numbers::CONDITION_LINK_FIELDS_IN_WHAT)?,
            in_condition: optional(alloc, message, numbers::CONDITION_LINK_FIELDS_IN_CONDITION)?,
        })
    }
}

impl FromMessage for StateLinkDef {
    ghost use Rattle.config_decode.specs.Metrics.{state_link_of};

    ghost tree = { state_link_of };

    fn from_message(alloc: Global, message: &Message<'_>) -> Result<StateLinkDef, AllocError> {
        Ok(StateLinkDef {
            atom_id: message.read_scalar(numbers::STATE_LINK_ATOM_ID),
            in_what: optional(alloc, message, numbers::STATE_LINK_FIELDS_IN_WHAT)?,
            in_state: optional(alloc, message, numbers::STATE_LINK_FIELDS_IN_STATE)?,
        })
    }
}

impl FromMessage for ActivationDef {
    ghost use Rattle.config_decode.specs.Metrics.{activation_of};

    ghost tree = { activation_of };

    fn from_message(_alloc: Global, message: &Message<'_>) -> Result<ActivationDef, AllocError> {
        Ok(ActivationDef {
            start: message.read_scalar(numbers::ACTIVATION_START),
            ttl: message.read_scalar(numbers::ACTIVATION_TTL),
            cancel: message.read_scalar(numbers::ACTIVATION_CANCEL),
        })
    }
}

// What a metric of every kind has, where the condition and the links have these numbers.
fn common(
    alloc: Global,
    message: &Message<'_>,
    kind: Kind,
    condition: u32,
    links: u32,
) -> Result<Common, AllocError>
    ensures { IfOk result (λ read. read ≡ metrics.common_of kind condition links message.now) }
{
    Ok(Common {
        id: message.read_scalar(numbers::METRIC_ID),
        what: message.read_scalar(numbers::METRIC_WHAT),
        condition: message.read_scalar(condition),
        links: repeated(alloc, message, links)?,
        activations: listed(alloc, message, kind, numbers::METRIC_ACTIVATION)?,
    })
}

// What a metric with buckets has that isn't sliced by states, where the key and the bucket have these numbers.
fn unsliced(
    alloc: Global,
    message: &Message<'_>,
    dims: u32,
    bucket: u32,
) -> Result<Sliced, AllocError>
    ensures { IfOk result (λ read. read ≡ metrics.unsliced_of dims bucket message.now) }
{
    Ok(Sliced {
        bucket: message.read_scalar(bucket),
        bound: message.read_scalar(numbers::KEY_BOUND),
        dims: optional(alloc, message, dims)?,
        slices: Seq::new(alloc),
        state_links: Seq::new(alloc),
    })
}

// What a metric with buckets and slices has, where the key, the bucket, the slices and their links have these numbers.
fn sliced(
    alloc: Global,
    message: &Message<'_>,
    dims: u32,
    bucket: u32,
    slices: u32,
    links: u32,
) -> Result<Sliced, AllocError>
    ensures { IfOk result (λ read. read ≡ metrics.sliced_of dims bucket slices links message.now) }
{
    Ok(Sliced {
        bucket: message.read_scalar(bucket),
        bound: message.read_scalar(numbers::KEY_BOUND),
        dims: optional(alloc, message, dims)?,
        slices: message.read_scalars(alloc, slices)?,
        state_links: repeated(alloc, message, links)?,
    })
}

impl FromMessage for EventDef {
    ghost use Rattle.config_decode.specs.Metrics.{event_of};

    ghost tree = { event_of };

    fn from_message(alloc: Global, message: &Message<'_>) -> Result<EventDef, AllocError> {
        let common = common(
            alloc,
            message,
            Kind::Event,
            numbers::EVENT_CONDITION,
            numbers::EVENT_LINKS,
        )?;
        Ok(EventDef { common })
    }
}

impl FromMessage for CountDef {
    ghost use Rattle.config_decode.specs.Metrics.{count_of};

    ghost tree = { count_of };

    fn from_message(alloc: Global, message: &Message<'_>) -> Result<CountDef, AllocError> {
        Ok(CountDef {
            overflow: message
                .read_scalar(numbers::COUNT_OVERFLOW)
                .unwrap_or(false),
            common: common(
                alloc,
                message,
                Kind::Count,
                numbers::COUNT_CONDITION,
                numbers::COUNT_LINKS,
            )?,
            sliced: sliced(
                alloc,
                message,
                numbers::COUNT_DIMENSIONS,
                numbers::COUNT_BUCKET,
                numbers::COUNT_SLICE_BY_STATE,
                numbers::COUNT_STATE_LINK,
            )?,
        })
    }
}

impl FromMessage for ValueDef {
    ghost use Rattle.config_decode.specs.Metrics.{value_of};

    ghost tree = { value_of };

    fn from_message(alloc: Global, message: &Message<'_>) -> Result<ValueDef, AllocError> {
        Ok(ValueDef {
            agg: message
                .read_scalar(numbers::VALUE_AGGREGATION_TYPE)
                .unwrap_or(Aggregation::Sum),
            abs_reset: message
                .read_scalar(numbers::VALUE_USE_ABSOLUTE_VALUE_ON_RESET)
                .unwrap_or(false),
            diff: message.read_scalar(numbers::VALUE_USE_DIFF),
            direction: message
                .read_scalar(numbers::VALUE_DIRECTION)
                .unwrap_or(Direction::Increasing),
            skip_zero: message
                .read_scalar(numbers::VALUE_SKIP_ZERO_DIFF_OUTPUT)
                .unwrap_or(true),
            zero_base: message
                .read_scalar(numbers::VALUE_USE_ZERO_DEFAULT_BASE)
                .unwrap_or(false),
            field: optional(alloc, message, numbers::VALUE_FIELD)?,
            common: common(
                alloc,
                message,
                Kind::Value,
                numbers::VALUE_CONDITION,
                numbers::VALUE_LINKS,
            )?,
            sliced: sliced(
                alloc,
                message,
                numbers::VALUE_DIMENSIONS,
                numbers::VALUE_BUCKET,
                numbers::VALUE_SLICE_BY_STATE,
                numbers::VALUE_STATE_LINK,
            )?,
        })
    }
}

// The filter of a gauge; one that has none says as little as an empty one.
fn filter<'a>(alloc: Global, message: &Message<'a>) -> Result<Message<'a>, AllocError>
    ensures { IfOk result (λ read.
        read ≡ metrics.filter_of (values.message gauge_fields_filter message.now)) }
{
    match message.read_message(alloc, numbers::GAUGE_FIELDS_FILTER)? {
        Some(filter) => Ok(filter),
        None => Ok(Message::new(alloc)),
    }
}

// Whether the samples of a gauge have all entries, and which they have else.
fn entries(alloc: Global, message: &Message<'_>) -> Result<(bool, Option<FieldMatcher>), AllocError>
    ensures { IfOk result (λ read. metrics.IsGaugeFilter
        (metrics.filter_of (values.message gauge_fields_filter message.now)) read.0 read.1) }
{
    let filter = filter(alloc, message)?;
    let include_all = filter
        .read_scalar(numbers::FILTER_INCLUDE_ALL)
        .unwrap_or(false);
    let fields = optional(alloc, &filter, numbers::FILTER_FIELDS)?;
    Ok((include_all, fields))
}

impl FromMessage for GaugeDef {
    ghost use Rattle.config_decode.specs.Metrics.{gauge_of};

    ghost tree = { gauge_of };

    fn from_message(alloc: Global, message: &Message<'_>) -> Result<GaugeDef, AllocError> {
        let (include_all, fields) = entries(alloc, message)?;
        Ok(GaugeDef {
            include_all,
            fields,
            sampling: message
                .read_scalar(numbers::GAUGE_SAMPLING_TYPE)
                .unwrap_or(SamplingType::RandomOne),
            max_samples: message.read_scalar(numbers::GAUGE_MAX_NUM_ATOMS),
            trigger: message.read_scalar(numbers::GAUGE_TRIGGER_EVENT),
            common: common(
                alloc,
                message,
                Kind::Gauge,
                numbers::GAUGE_CONDITION,
                numbers::GAUGE_LINKS,
            )?,
            sliced: unsliced(
                alloc,
                message,
                numbers::GAUGE_DIMENSIONS,
                numbers::GAUGE_BUCKET,
            )?,
        })
    }
}

impl FromMessage for DurationDef {
    ghost use Rattle.config_decode.specs.Metrics.{duration_of};

    ghost tree = { duration_of };

    fn from_message(alloc: Global, message: &Message<'_>) -> Result<DurationDef, AllocError> {
        let runs = message
            .read_scalar(numbers::DURATION_AGGREGATION_TYPE)
            .unwrap_or(Runs::Sum);
        Ok(DurationDef {
            max_sparse: matches!(runs, Runs::MaxSparse),
            common: common(
                alloc,
                message,
                Kind::Duration,
                numbers::DURATION_CONDITION,
                numbers::DURATION_LINKS,
            )?,
            sliced: sliced(
                alloc,
                message,
                numbers::DURATION_DIMENSIONS,
                numbers::DURATION_BUCKET,
                numbers::DURATION_SLICE_BY_STATE,
                numbers::DURATION_STATE_LINK,
            )?,
        })
    }
}
