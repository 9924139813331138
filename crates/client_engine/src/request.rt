//! What is asked of a report.

use crate::live_id::LiveId;

/// Whose report it is, with or without a cut of the open parts, and the clock.
#[derive(Clone, Copy)]
pub struct ReportRequest {
    pub name: LiveId,
    pub include_current: bool,
    pub at: u64,
}
