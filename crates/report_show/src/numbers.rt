//! The numbers of the fields by which the parts of a report are found, by message.

/// The report of a configuration.
pub const REPORT_METRIC: u32 = 1;

pub const REPORT_LAST: u32 = 3;

pub const REPORT_NOW: u32 = 4;

pub const REPORT_PREDICATE_DROPS: u32 = 1001;

pub const REPORT_STATE_DROPS: u32 = 1002;

pub const REPORT_DROPPED_STATE_ATOMS: u32 = 1003;

pub const REPORT_ALARMS: u32 = 1004;

pub const REPORT_ALARMS_NOT_KEPT: u32 = 1005;

/// A metric. Gauges are what has none of the other numbers.
pub const SHOWN_EVENTS: u32 = 4;

pub const SHOWN_COUNTS: u32 = 5;

pub const SHOWN_DURATIONS: u32 = 6;

pub const SHOWN_VALUES: u32 = 7;

pub const SHOWN_BASE: u32 = 9;

pub const SHOWN_SIZE: u32 = 10;

pub const SHOWN_DROPPED: u32 = 1001;

pub const SHOWN_NOT_KEPT: u32 = 1002;

pub const SHOWN_MISSING: u32 = 1003;

/// The rows of a metric.
pub const WRAPPER_DATA: u32 = 1;

/// A row of the kinds with buckets. An alarm's key has the same numbers.
pub const DATA_BUCKET: u32 = 3;

pub const DATA_LEAF: u32 = 4;

pub const DATA_SLICE: u32 = 6;

pub const DATA_OVERFLOW: u32 = 1001;

/// A bucket with atoms.
pub const BUCKET_ATOM: u32 = 3;

/// A value of a key.
pub const DIMENSION_STR: u32 = 2;

pub const DIMENSION_INT: u32 = 3;

pub const DIMENSION_LONG: u32 = 4;

pub const DIMENSION_BOOL: u32 = 5;

pub const DIMENSION_FLOAT: u32 = 6;

pub const DIMENSION_PLACE: u32 = 1001;

pub const DIMENSION_RAW: u32 = 1002;

/// A state by which a metric is sliced.
pub const SLICE_GROUP_ID: u32 = 2;
