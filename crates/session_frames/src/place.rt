//! Where a reader stands in a session.

/// How many bytes and frames of a session were read, and the time of the last frame of the log.
#[derive(Clone, Copy)]
pub(crate) struct Place {
    pub(crate) bytes: u64,
    pub(crate) clock: u64,
    pub(crate) frames: u64,
}
