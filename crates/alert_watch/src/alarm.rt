//! What an alert tells.

use atom_record::MetricKey;
use sd_base::Seq;

/// The most alarms that one report lists of an alert.
pub const MAX_ALARMS: usize = 100;

/// One alarm: the arrival that set it off.
#[derive(Drop, PartialEq, Eq)]
pub struct Alarm {
    /// When it came, in nanoseconds.
    pub at: u64,
    /// How often its key was admitted in the window, this arrival included.
    pub sum: u64,
    /// Its key.
    pub key: MetricKey,
}

/// The alarms since a report told some: the first ones, and how many came after those.
#[derive(Drop, PartialEq, Eq)]
pub struct Alarms {
    pub listed: Seq<Alarm>,
    pub not_kept: u64,
}
