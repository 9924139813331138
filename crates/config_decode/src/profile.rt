//! The profile: which fields the messages of a configuration have, and what stands in them.
ghost use Rattle.std.specs.Prelude.{◌≡◌};
ghost use Rattle.proto_wire.specs.Fields.{field_view};
ghost use Rattle.config_decode.specs.Profile as profile;

use crate::numbers;
use crate::scalar::Scalar;
use config_types::{Aggregation, SamplingType, TimeUnit};
use proto_wire::{Body, Field};

/// The messages of a configuration, by what they say.
#[derive(Clone, Copy)]
pub enum Kind {
    /// The whole, a `StatsdConfig`.
    Config,
    /// An `AtomMatcher`.
    Matcher,
    /// A `SimpleAtomMatcher`.
    SimpleMatcher,
    /// A `FieldValueMatcher`.
    FieldTest,
    /// A `MessageMatcher`.
    Tuple,
    /// A `StringListMatcher`.
    Texts,
    /// A combination of matchers, or of predicates.
    Combo,
    Predicate,
    SimplePredicate,
    FieldMatcher,
    /// A `MetricConditionLink`.
    Link,
    /// A `MetricStateLink`.
    StateLink,
    State,
    StateMap,
    /// A group of a `StateMap`.
    Group,
    /// A `FieldFilter`.
    Filter,
    /// An `EventMetric`.
    Event,
    /// A `CountMetric`.
    Count,
    /// A `ValueMetric`.
    Value,
    /// A `GaugeMetric`.
    Gauge,
    /// A `DurationMetric`.
    Duration,
    /// What makes a metric active.
    Activation,
    Alert,
}

/// What stands in a field.
#[derive(Clone, Copy)]
pub enum Shape {
    /// A number, a truth, or an enum of which unknown numbers are passed over.
    Number,
    /// Numbers, each in a record of its own or many packed in one.
    Numbers,
    /// A string of bytes.
    Text,
    /// A message.
    Message(Kind),
    /// The unit of a bucket's size: another number than that of a unit isn't supported.
    BucketUnit,
    /// How values come to one: another number than that of an aggregation isn't supported.
    ValueAggregation,
    /// When samples are taken: another number than that of a type of sampling isn't supported.
    GaugeSampling,
    /// Anything: it is accepted and not acted on, and isn't looked into.
    Ignored,
    /// Nothing: the field isn't supported, or isn't there.
    Refused,
}

/// A field: its number, and what stands in it.
type Row = (u32, Shape);

const CONFIG: [Row; 11] = [
    (numbers::CONFIG_EVENT_METRIC, Shape::Message(Kind::Event)),
    (numbers::CONFIG_COUNT_METRIC, Shape::Message(Kind::Count)),
    (numbers::CONFIG_VALUE_METRIC, Shape::Message(Kind::Value)),
    (numbers::CONFIG_GAUGE_METRIC, Shape::Message(Kind::Gauge)),
    (
        numbers::CONFIG_DURATION_METRIC,
        Shape::Message(Kind::Duration),
    ),
    (numbers::CONFIG_ATOM_MATCHER, Shape::Message(Kind::Matcher)),
    (numbers::CONFIG_PREDICATE, Shape::Message(Kind::Predicate)),
    (numbers::CONFIG_NO_REPORT_METRIC, Shape::Numbers),
    (numbers::CONFIG_METRIC_ACTIVATION, Shape::Refused),
    (numbers::CONFIG_STATE, Shape::Message(Kind::State)),
    (numbers::CONFIG_ALERT, Shape::Message(Kind::Alert)),
];

const MATCHER: [Row; 3] = [
    (numbers::MATCHER_ID, Shape::Number),
    (numbers::MATCHER_SIMPLE, Shape::Message(Kind::SimpleMatcher)),
    (numbers::MATCHER_COMBINATION, Shape::Message(Kind::Combo)),
];

const SIMPLE_MATCHER: [Row; 2] = [
    (numbers::SIMPLE_MATCHER_ATOM_ID, Shape::Number),
    (
        numbers::SIMPLE_MATCHER_TEST,
        Shape::Message(Kind::FieldTest),
    ),
];

const FIELD_TEST: [Row; 12] = [
    (numbers::TEST_FIELD, Shape::Number),
    (numbers::TEST_POSITION, Shape::Number),
    (numbers::TEST_EQ_BOOL, Shape::Number),
    (numbers::TEST_EQ_STRING, Shape::Text),
    (numbers::TEST_EQ_INT, Shape::Number),
    (numbers::TEST_LT_INT, Shape::Number),
    (numbers::TEST_GT_INT, Shape::Number),
    (numbers::TEST_LTE_INT, Shape::Number),
    (numbers::TEST_GTE_INT, Shape::Number),
    (numbers::TEST_MATCHES_TUPLE, Shape::Message(Kind::Tuple)),
    (numbers::TEST_EQ_ANY_STRING, Shape::Message(Kind::Texts)),
    (numbers::TEST_NEQ_ANY_STRING, Shape::Message(Kind::Texts)),
];

const TUPLE: [Row; 1] = [(numbers::TUPLE_TEST, Shape::Message(Kind::FieldTest))];

const TEXTS: [Row; 1] = [(numbers::STRINGS_STR_VALUE, Shape::Text)];

const COMBO: [Row; 2] = [
    (numbers::COMBINATION_OPERATION, Shape::Number),
    (numbers::COMBINATION_OPERAND, Shape::Numbers),
];

const PREDICATE: [Row; 3] = [
    (numbers::PREDICATE_ID, Shape::Number),
    (
        numbers::PREDICATE_SIMPLE,
        Shape::Message(Kind::SimplePredicate),
    ),
    (numbers::PREDICATE_COMBINATION, Shape::Message(Kind::Combo)),
];

const SIMPLE_PREDICATE: [Row; 7] = [
    (numbers::SIMPLE_PREDICATE_START, Shape::Number),
    (numbers::SIMPLE_PREDICATE_STOP, Shape::Number),
    (numbers::SIMPLE_PREDICATE_COUNT_NESTING, Shape::Number),
    (numbers::SIMPLE_PREDICATE_STOP_ALL, Shape::Number),
    (numbers::SIMPLE_PREDICATE_INITIAL_VALUE, Shape::Number),
    (
        numbers::SIMPLE_PREDICATE_DIMENSIONS,
        Shape::Message(Kind::FieldMatcher),
    ),
    (numbers::KEY_BOUND, Shape::Number),
];

const FIELD_MATCHER: [Row; 3] = [
    (numbers::LEAF_FIELD, Shape::Number),
    (numbers::LEAF_POSITION, Shape::Number),
    (numbers::LEAF_CHILD, Shape::Message(Kind::FieldMatcher)),
];

const LINK: [Row; 3] = [
    (numbers::CONDITION_LINK_CONDITION, Shape::Number),
    (
        numbers::CONDITION_LINK_FIELDS_IN_WHAT,
        Shape::Message(Kind::FieldMatcher),
    ),
    (
        numbers::CONDITION_LINK_FIELDS_IN_CONDITION,
        Shape::Message(Kind::FieldMatcher),
    ),
];

const STATE_LINK: [Row; 3] = [
    (numbers::STATE_LINK_ATOM_ID, Shape::Number),
    (
        numbers::STATE_LINK_FIELDS_IN_WHAT,
        Shape::Message(Kind::FieldMatcher),
    ),
    (
        numbers::STATE_LINK_FIELDS_IN_STATE,
        Shape::Message(Kind::FieldMatcher),
    ),
];

const STATE: [Row; 3] = [
    (numbers::STATE_ID, Shape::Number),
    (numbers::STATE_ATOM_ID, Shape::Number),
    (numbers::STATE_MAP, Shape::Message(Kind::StateMap)),
];

const STATE_MAP: [Row; 1] = [(numbers::STATE_MAP_GROUP, Shape::Message(Kind::Group))];

const GROUP: [Row; 2] = [
    (numbers::STATE_GROUP_ID, Shape::Number),
    (numbers::STATE_GROUP_VALUE, Shape::Numbers),
];

const FILTER: [Row; 2] = [
    (numbers::FILTER_INCLUDE_ALL, Shape::Number),
    (numbers::FILTER_FIELDS, Shape::Message(Kind::FieldMatcher)),
];

const EVENT: [Row; 5] = [
    (numbers::METRIC_ID, Shape::Number),
    (numbers::METRIC_WHAT, Shape::Number),
    (numbers::EVENT_CONDITION, Shape::Number),
    (numbers::EVENT_LINKS, Shape::Message(Kind::Link)),
    (numbers::METRIC_ACTIVATION, Shape::Message(Kind::Activation)),
];

const COUNT: [Row; 11] = [
    (numbers::METRIC_ID, Shape::Number),
    (numbers::METRIC_WHAT, Shape::Number),
    (numbers::COUNT_CONDITION, Shape::Number),
    (
        numbers::COUNT_DIMENSIONS,
        Shape::Message(Kind::FieldMatcher),
    ),
    (numbers::COUNT_BUCKET, Shape::BucketUnit),
    (numbers::COUNT_LINKS, Shape::Message(Kind::Link)),
    (numbers::COUNT_SLICE_BY_STATE, Shape::Numbers),
    (numbers::COUNT_STATE_LINK, Shape::Message(Kind::StateLink)),
    (numbers::KEY_BOUND, Shape::Number),
    (numbers::COUNT_OVERFLOW, Shape::Number),
    (numbers::METRIC_ACTIVATION, Shape::Message(Kind::Activation)),
];

const VALUE: [Row; 20] = [
    (numbers::METRIC_ID, Shape::Number),
    (numbers::METRIC_WHAT, Shape::Number),
    (numbers::VALUE_FIELD, Shape::Message(Kind::FieldMatcher)),
    (numbers::VALUE_CONDITION, Shape::Number),
    (
        numbers::VALUE_DIMENSIONS,
        Shape::Message(Kind::FieldMatcher),
    ),
    (numbers::VALUE_BUCKET, Shape::BucketUnit),
    (numbers::VALUE_LINKS, Shape::Message(Kind::Link)),
    (numbers::VALUE_AGGREGATION_TYPE, Shape::ValueAggregation),
    (numbers::VALUE_MIN_BUCKET_SIZE, Shape::Ignored),
    (numbers::VALUE_USE_ABSOLUTE_VALUE_ON_RESET, Shape::Number),
    (numbers::VALUE_USE_DIFF, Shape::Number),
    (numbers::VALUE_DIRECTION, Shape::Number),
    (numbers::VALUE_SKIP_ZERO_DIFF_OUTPUT, Shape::Number),
    (numbers::VALUE_USE_ZERO_DEFAULT_BASE, Shape::Number),
    (numbers::VALUE_MAX_PULL_DELAY, Shape::Ignored),
    (numbers::VALUE_SPLIT_BUCKET, Shape::Ignored),
    (numbers::VALUE_SLICE_BY_STATE, Shape::Numbers),
    (numbers::VALUE_STATE_LINK, Shape::Message(Kind::StateLink)),
    (numbers::KEY_BOUND, Shape::Number),
    (numbers::METRIC_ACTIVATION, Shape::Message(Kind::Activation)),
];

const GAUGE: [Row; 15] = [
    (numbers::METRIC_ID, Shape::Number),
    (numbers::METRIC_WHAT, Shape::Number),
    (numbers::GAUGE_FIELDS_FILTER, Shape::Message(Kind::Filter)),
    (numbers::GAUGE_CONDITION, Shape::Number),
    (
        numbers::GAUGE_DIMENSIONS,
        Shape::Message(Kind::FieldMatcher),
    ),
    (numbers::GAUGE_BUCKET, Shape::BucketUnit),
    (numbers::GAUGE_LINKS, Shape::Message(Kind::Link)),
    (numbers::GAUGE_SAMPLING_TYPE, Shape::GaugeSampling),
    (numbers::GAUGE_MIN_BUCKET_SIZE, Shape::Ignored),
    (numbers::GAUGE_MAX_NUM_ATOMS, Shape::Number),
    (numbers::GAUGE_TRIGGER_EVENT, Shape::Number),
    (numbers::GAUGE_MAX_PULL_DELAY, Shape::Ignored),
    (numbers::GAUGE_SPLIT_BUCKET, Shape::Ignored),
    (numbers::KEY_BOUND, Shape::Number),
    (numbers::METRIC_ACTIVATION, Shape::Message(Kind::Activation)),
];

const DURATION: [Row; 10] = [
    (numbers::METRIC_ID, Shape::Number),
    (numbers::METRIC_WHAT, Shape::Number),
    (numbers::DURATION_CONDITION, Shape::Number),
    (numbers::DURATION_LINKS, Shape::Message(Kind::Link)),
    (numbers::DURATION_AGGREGATION_TYPE, Shape::Number),
    (
        numbers::DURATION_DIMENSIONS,
        Shape::Message(Kind::FieldMatcher),
    ),
    (numbers::DURATION_BUCKET, Shape::BucketUnit),
    (numbers::DURATION_SLICE_BY_STATE, Shape::Numbers),
    (
        numbers::DURATION_STATE_LINK,
        Shape::Message(Kind::StateLink),
    ),
    (numbers::KEY_BOUND, Shape::Number),
];

const ACTIVATION: [Row; 3] = [
    (numbers::ACTIVATION_START, Shape::Number),
    (numbers::ACTIVATION_TTL, Shape::Number),
    (numbers::ACTIVATION_CANCEL, Shape::Number),
];

const ALERT: [Row; 5] = [
    (numbers::ALERT_ID, Shape::Number),
    (numbers::ALERT_METRIC, Shape::Number),
    (numbers::ALERT_THRESHOLD, Shape::Number),
    (numbers::ALERT_PARTS, Shape::Number),
    (numbers::ALERT_REFRACTORY, Shape::Number),
];

impl Kind {
    /// The fields of this message.
    fn rows(self) -> &'static [Row]
        ensures { result.now ≡ profile.profile_rows self }
    {
        match self {
            Kind::Config => &CONFIG,
            Kind::Matcher => &MATCHER,
            Kind::SimpleMatcher => &SIMPLE_MATCHER,
            Kind::FieldTest => &FIELD_TEST,
            Kind::Tuple => &TUPLE,
            Kind::Texts => &TEXTS,
            Kind::Combo => &COMBO,
            Kind::Predicate => &PREDICATE,
            Kind::SimplePredicate => &SIMPLE_PREDICATE,
            Kind::FieldMatcher => &FIELD_MATCHER,
            Kind::Link => &LINK,
            Kind::StateLink => &STATE_LINK,
            Kind::State => &STATE,
            Kind::StateMap => &STATE_MAP,
            Kind::Group => &GROUP,
            Kind::Filter => &FILTER,
            Kind::Event => &EVENT,
            Kind::Count => &COUNT,
            Kind::Value => &VALUE,
            Kind::Gauge => &GAUGE,
            Kind::Duration => &DURATION,
            Kind::Activation => &ACTIVATION,
            Kind::Alert => &ALERT,
        }
    }

    /// What stands in a field that has no row.
    fn judge_unlisted(self) -> Shape
        ensures { result ≡ profile.shape_without_row self }
    {
        match self {
            Kind::Config => Shape::Ignored,
            _ => Shape::Refused,
        }
    }

    /// Whether this is the whole configuration.
    fn is_top(self) -> bool
        ensures { result ≡ profile.is_top self }
    {
        matches!(self, Kind::Config)
    }

    /// What stands in the field of this number.
    pub fn shape(self, number: u32) -> Shape
        ensures { result ≡ profile.shape_of self number }
    {
        find_shape(self.judge_unlisted(), self.rows(), number)
    }

    /// Whether a record of this message isn't supported: no field of its number, another wire type than that of its
    /// field, or a number outside an enum that is strict. At the top such a record is passed over, but for strict ones.
    pub fn rejects(self, field: &Field<'_>) -> bool
        ensures { result ≡ profile.refuses self (field_view field.now) }
    {
        match (self.shape(field.number), field.body) {
            (Shape::Ignored, _)
            | (Shape::Number | Shape::Numbers, Body::Varint(_))
            | (Shape::Numbers | Shape::Text | Shape::Message(_), Body::Bytes(_)) => false,
            (Shape::BucketUnit, Body::Varint(number)) => TimeUnit::from_varint(number).is_none(),
            (Shape::ValueAggregation, Body::Varint(number)) => {
                Aggregation::from_varint(number).is_none()
            }
            (Shape::GaugeSampling, Body::Varint(number)) => {
                SamplingType::from_varint(number).is_none()
            }
            (Shape::Refused, _) => true,
            _ => !self.is_top(),
        }
    }
}

/// The low 32 bits.
pub fn truncate_to_u32(number: u64) -> u32
    ensures { result ≡ profile.low_half number }
{
    (number % (1 << 32)) as u32
}

// The shape in the row of a number, or another where there is no such row.
fn find_shape(other: Shape, mut rows: &[Row], number: u32) -> Shape
    ensures { result ≡ profile.shape_in other rows.entry.now number }
{
    while let [row, rest @ ..] = rows {
        if row.0 == number {
            return row.1;
        }
        rows = rest;
    }
    other
}
