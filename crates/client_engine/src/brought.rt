//! What a frame of the log brings to each metric.

use atom_record::LogFrame;
use config_links::{LMatcher, LMetric, LState};
use state_slicer::StateBook;
use std::alloc::Global;

/// A frame of the log, once predicates and the book of states know of it, with the matchers and the states of the
/// configuration.
#[derive(Clone, Copy)]
pub struct Brought<'a> {
    /// The memory that is taken for what is made of it.
    pub alloc: Global,
    pub frame: &'a LogFrame,
    /// For an atom the truth of each matcher, in config order, and else nothing.
    pub matched: &'a [bool],
    pub matchers: &'a [LMatcher],
    pub states: &'a [LState],
    /// The states that the log gave, with this frame.
    pub book: &'a StateBook,
}

/// A metric whose lane takes what is brought, and whether it is active there.
#[derive(Clone, Copy)]
pub struct Taker<'a> {
    pub metric: &'a LMetric,
    pub is_active: bool,
}
