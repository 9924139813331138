//! What holds of all that a producer of durations stands for, so that a contract may say it.
ghost use Rattle.duration_metric.specs.SparseStands.{sparse_law};
ghost use Rattle.duration_metric.specs.SumStands.{sum_law};
ghost use Rattle.metric_producer.specs.Joining.{Joins};

/// Two crossings with nothing between them mean what one that covers both means. It does nothing when it
/// runs.
pub fn crossings_join()
    ensures sums { Joins sum_law }
    ensures longest { Joins sparse_law }
{}
