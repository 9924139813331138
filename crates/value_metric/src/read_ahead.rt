//! What holds of the intervals of pulled values, so that a contract may say it.
ghost use Rattle.value_metric.specs.ReadAhead.{AreReadAhead};

/// In each part of the calls of a producer of pulled values the intervals that end are those that are read ahead from
/// the part's start. It does nothing when it runs.
pub fn intervals_are_read_ahead()
    ensures { AreReadAhead }
{}
