//! The numbers of the fields of a report, by message. Each is named here alone.

/// The whole: whose report it is, and the report.
pub const LIST_KEY: u32 = 1;

pub const LIST_REPORT: u32 = 2;

/// Whose report it is.
pub const KEY_UID: u32 = 1;

pub const KEY_ID: u32 = 2;

/// The report of a configuration.
pub const REPORT_METRIC: u32 = 1;

pub const REPORT_LAST: u32 = 3;

pub const REPORT_NOW: u32 = 4;

pub const REPORT_PREDICATE_DROPS: u32 = 1001;

pub const REPORT_STATE_DROPS: u32 = 1002;

pub const REPORT_DROPPED_STATE_ATOMS: u32 = 1003;

pub const REPORT_ALARMS: u32 = 1004;

pub const REPORT_ALARMS_NOT_KEPT: u32 = 1005;

/// What a full table dropped, or a full list didn't keep.
pub const DROPS_ID: u32 = 1;

pub const DROPS_NUMBER: u32 = 2;

/// An alarm, whose key has the numbers of a row's.
pub const ALARM_ALERT: u32 = 1;

pub const ALARM_TIME: u32 = 2;

pub const ALARM_SUM: u32 = 3;

/// A metric.
pub const SHOWN_ID: u32 = 1;

pub const SHOWN_EVENTS: u32 = 4;

pub const SHOWN_COUNTS: u32 = 5;

pub const SHOWN_DURATIONS: u32 = 6;

pub const SHOWN_VALUES: u32 = 7;

pub const SHOWN_GAUGES: u32 = 8;

pub const SHOWN_BASE: u32 = 9;

pub const SHOWN_SIZE: u32 = 10;

pub const SHOWN_DROPPED: u32 = 1001;

pub const SHOWN_NOT_KEPT: u32 = 1002;

pub const SHOWN_MISSING: u32 = 1003;

/// The rows of a metric.
pub const WRAPPER_DATA: u32 = 1;

/// A row of an event metric.
pub const EVENT_TIME: u32 = 1;

pub const EVENT_ATOM: u32 = 2;

/// A row of the other kinds.
pub const DATA_BUCKET: u32 = 3;

pub const DATA_LEAF: u32 = 4;

pub const DATA_SLICE: u32 = 6;

pub const DATA_OVERFLOW: u32 = 1001;

/// A bucket.
pub const BUCKET_START: u32 = 1;

pub const BUCKET_END: u32 = 2;

pub const BUCKET_NUMBER: u32 = 3;

pub const BUCKET_ATOM: u32 = 3;

/// A value of a key.
pub const DIMENSION_STR: u32 = 2;

pub const DIMENSION_INT: u32 = 3;

pub const DIMENSION_LONG: u32 = 4;

pub const DIMENSION_BOOL: u32 = 5;

pub const DIMENSION_FLOAT: u32 = 6;

pub const DIMENSION_PLACE: u32 = 1001;

pub const DIMENSION_RAW: u32 = 1002;

/// A state by which a metric is sliced.
pub const SLICE_ATOM_ID: u32 = 1;

pub const SLICE_GROUP_ID: u32 = 2;

pub const SLICE_VALUE: u32 = 3;

/// The greatest number that a field may have.
pub const GREATEST_FIELD_NUMBER: u32 = 536_870_911;
