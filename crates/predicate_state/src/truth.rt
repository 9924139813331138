//! The three truths.

/// What holds of a key, as far as it is known.
#[derive(Clone, Copy, Debug, PartialEq, Eq)]
pub enum Truth {
    False,
    /// Neither a start nor a stop was seen, and the predicate doesn't say how it began.
    Unknown,
    True,
}
