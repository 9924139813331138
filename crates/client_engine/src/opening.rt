//! What metrics find when their configuration is installed.

use config_links::{LAlert, LMatcher};
use pull_book::PullBook;
use std::alloc::Global;

/// The clock at the installation, the matchers and the alerts of the configuration, and the book of pulls.
#[derive(Clone, Copy)]
pub struct Opening<'a> {
    /// The memory that is taken for what they make of it.
    pub alloc: Global,
    pub base: u64,
    pub matchers: &'a [LMatcher],
    pub alerts: &'a [LAlert],
    /// The snapshots that the log gave so far.
    pub pulls: &'a PullBook,
}
