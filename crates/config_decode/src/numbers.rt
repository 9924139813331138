//! The numbers of the fields, by message, as `statsd_config.proto` names them. Each is named here alone.

// The whole, `StatsdConfig`.
pub const CONFIG_EVENT_METRIC: u32 = 2;

pub const CONFIG_COUNT_METRIC: u32 = 3;

pub const CONFIG_VALUE_METRIC: u32 = 4;

pub const CONFIG_GAUGE_METRIC: u32 = 5;

pub const CONFIG_DURATION_METRIC: u32 = 6;

pub const CONFIG_ATOM_MATCHER: u32 = 7;

pub const CONFIG_PREDICATE: u32 = 8;

pub const CONFIG_NO_REPORT_METRIC: u32 = 13;

pub const CONFIG_METRIC_ACTIVATION: u32 = 17;

pub const CONFIG_STATE: u32 = 21;

/// This project's own.
pub const CONFIG_ALERT: u32 = 1011;

// A matcher, `AtomMatcher`.
pub const MATCHER_ID: u32 = 1;

pub const MATCHER_SIMPLE: u32 = 2;

pub const MATCHER_COMBINATION: u32 = 3;

// A combination, of matchers or of predicates, `Combination`.
pub const COMBINATION_OPERATION: u32 = 1;

pub const COMBINATION_OPERAND: u32 = 2;

// A matcher of atoms, `SimpleAtomMatcher`.
pub const SIMPLE_MATCHER_ATOM_ID: u32 = 1;

pub const SIMPLE_MATCHER_TEST: u32 = 2;

// A test of a field, `FieldValueMatcher`.
pub const TEST_FIELD: u32 = 1;

pub const TEST_POSITION: u32 = 2;

pub const TEST_EQ_BOOL: u32 = 3;

pub const TEST_EQ_STRING: u32 = 4;

pub const TEST_EQ_INT: u32 = 5;

pub const TEST_LT_INT: u32 = 6;

pub const TEST_GT_INT: u32 = 7;

pub const TEST_LTE_INT: u32 = 10;

pub const TEST_GTE_INT: u32 = 11;

pub const TEST_MATCHES_TUPLE: u32 = 12;

pub const TEST_EQ_ANY_STRING: u32 = 13;

pub const TEST_NEQ_ANY_STRING: u32 = 14;

// The tests of a tuple, `MessageMatcher`.
pub const TUPLE_TEST: u32 = 1;

// A list of strings, `StringListMatcher`.
pub const STRINGS_STR_VALUE: u32 = 1;

// A predicate, `Predicate`.
pub const PREDICATE_ID: u32 = 1;

pub const PREDICATE_SIMPLE: u32 = 2;

pub const PREDICATE_COMBINATION: u32 = 3;

// A predicate of atoms, `SimplePredicate`.
pub const SIMPLE_PREDICATE_START: u32 = 1;

pub const SIMPLE_PREDICATE_STOP: u32 = 2;

pub const SIMPLE_PREDICATE_COUNT_NESTING: u32 = 3;

pub const SIMPLE_PREDICATE_STOP_ALL: u32 = 4;

pub const SIMPLE_PREDICATE_INITIAL_VALUE: u32 = 5;

pub const SIMPLE_PREDICATE_DIMENSIONS: u32 = 6;

// A tree of field numbers, `FieldMatcher`.
pub const LEAF_FIELD: u32 = 1;

pub const LEAF_POSITION: u32 = 2;

pub const LEAF_CHILD: u32 = 3;

// A link to a condition, `MetricConditionLink`.
pub const CONDITION_LINK_CONDITION: u32 = 1;

pub const CONDITION_LINK_FIELDS_IN_WHAT: u32 = 2;

pub const CONDITION_LINK_FIELDS_IN_CONDITION: u32 = 3;

// A link to a state, `MetricStateLink`.
pub const STATE_LINK_ATOM_ID: u32 = 1;

pub const STATE_LINK_FIELDS_IN_WHAT: u32 = 2;

pub const STATE_LINK_FIELDS_IN_STATE: u32 = 3;

// A state, `State`.
pub const STATE_ID: u32 = 1;

pub const STATE_ATOM_ID: u32 = 2;

pub const STATE_MAP: u32 = 3;

// The groups of a state, `StateMap`.
pub const STATE_MAP_GROUP: u32 = 1;

// A group of a state's values, `StateGroup`.
pub const STATE_GROUP_ID: u32 = 1;

pub const STATE_GROUP_VALUE: u32 = 2;

// The fields that a gauge samples, `FieldFilter`.
pub const FILTER_INCLUDE_ALL: u32 = 1;

pub const FILTER_FIELDS: u32 = 2;

// Every metric.
pub const METRIC_ID: u32 = 1;

pub const METRIC_WHAT: u32 = 2;

// How many keys a metric with buckets or a simple predicate holds.
pub const KEY_BOUND: u32 = 1001;

/// What makes a metric active, unless it is one of durations.
pub const METRIC_ACTIVATION: u32 = 1010;

// What makes a metric active, `Activation`.
pub const ACTIVATION_START: u32 = 1;

pub const ACTIVATION_TTL: u32 = 2;

pub const ACTIVATION_CANCEL: u32 = 3;

// An alert, `Alert`.
pub const ALERT_ID: u32 = 1;

pub const ALERT_METRIC: u32 = 2;

pub const ALERT_THRESHOLD: u32 = 3;

pub const ALERT_PARTS: u32 = 4;

pub const ALERT_REFRACTORY: u32 = 5;

// An event metric, `EventMetric`.
pub const EVENT_CONDITION: u32 = 3;

pub const EVENT_LINKS: u32 = 4;

// A count metric, `CountMetric`.
pub const COUNT_CONDITION: u32 = 3;

pub const COUNT_DIMENSIONS: u32 = 4;

pub const COUNT_BUCKET: u32 = 5;

pub const COUNT_LINKS: u32 = 6;

pub const COUNT_SLICE_BY_STATE: u32 = 8;

pub const COUNT_STATE_LINK: u32 = 9;

pub const COUNT_OVERFLOW: u32 = 1002;

// A value metric, `ValueMetric`.
pub const VALUE_FIELD: u32 = 3;

pub const VALUE_CONDITION: u32 = 4;

pub const VALUE_DIMENSIONS: u32 = 5;

pub const VALUE_BUCKET: u32 = 6;

pub const VALUE_LINKS: u32 = 7;

pub const VALUE_AGGREGATION_TYPE: u32 = 8;

pub const VALUE_MIN_BUCKET_SIZE: u32 = 10;

pub const VALUE_USE_ABSOLUTE_VALUE_ON_RESET: u32 = 11;

pub const VALUE_USE_DIFF: u32 = 12;

pub const VALUE_DIRECTION: u32 = 13;

pub const VALUE_SKIP_ZERO_DIFF_OUTPUT: u32 = 14;

pub const VALUE_USE_ZERO_DEFAULT_BASE: u32 = 15;

pub const VALUE_MAX_PULL_DELAY: u32 = 16;

pub const VALUE_SPLIT_BUCKET: u32 = 17;

pub const VALUE_SLICE_BY_STATE: u32 = 18;

pub const VALUE_STATE_LINK: u32 = 19;

// A gauge metric, `GaugeMetric`.
pub const GAUGE_FIELDS_FILTER: u32 = 3;

pub const GAUGE_CONDITION: u32 = 4;

pub const GAUGE_DIMENSIONS: u32 = 5;

pub const GAUGE_BUCKET: u32 = 6;

pub const GAUGE_LINKS: u32 = 7;

pub const GAUGE_SAMPLING_TYPE: u32 = 9;

pub const GAUGE_MIN_BUCKET_SIZE: u32 = 10;

pub const GAUGE_MAX_NUM_ATOMS: u32 = 11;

pub const GAUGE_TRIGGER_EVENT: u32 = 12;

pub const GAUGE_MAX_PULL_DELAY: u32 = 13;

pub const GAUGE_SPLIT_BUCKET: u32 = 14;

// A duration metric, `DurationMetric`.
pub const DURATION_CONDITION: u32 = 3;

pub const DURATION_LINKS: u32 = 4;

pub const DURATION_AGGREGATION_TYPE: u32 = 5;

pub const DURATION_DIMENSIONS: u32 = 6;

pub const DURATION_BUCKET: u32 = 7;

pub const DURATION_SLICE_BY_STATE: u32 = 9;

pub const DURATION_STATE_LINK: u32 = 10;
