//! Alerts, which watch the counts of metrics.

/// An alert: when a key's count over the last parts of a metric is too high.
#[derive(Clone, Copy, Debug)]
pub struct AlertDef {
    /// Field 1.
    pub id: Option<i64>,
    /// Field 2: the id of the metric whose counts it watches.
    pub metric: Option<i64>,
    /// Field 3: the number that a count has to pass.
    pub threshold: Option<i64>,
    /// Field 4: over how many parts of the metric is counted, the open one among them.
    pub parts: Option<i32>,
    /// Field 5: how many seconds after an alarm there is no other one. Where it is absent, 0.
    pub refractory: Option<i64>,
}
