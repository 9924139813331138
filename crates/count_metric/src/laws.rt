//! What holds of all that a producer of counts stands for, so that a contract may say it.
ghost use Rattle.count_metric.specs.CountStands.{count_law};
ghost use Rattle.metric_producer.specs.Joining.{Joins};

/// Two crossings with nothing between them mean what one that covers both means. It does nothing when it
/// runs.
pub fn crossings_join()
    ensures { Joins count_law }
{}
