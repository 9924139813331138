//! What may happen to a predicate.

/// What an atom does to a predicate.
#[derive(Clone, Copy, Debug, PartialEq, Eq)]
pub enum PredEvent {
    /// Its key is started once more.
    Start,
    /// Its key is stopped once.
    Stop,
    /// Every key is stopped for good, whatever the key.
    StopAll,
}
