//! What holds of all that a producer of values stands for, so that a contract may say it.
ghost use Rattle.metric_producer.specs.Joining.{Joins};
ghost use Rattle.value_metric.specs.PulledStands.{pulled_law};
ghost use Rattle.value_metric.specs.PushedStands.{pushed_law};

/// Two crossings with nothing between them mean what one that covers both means. It does nothing when it
/// runs.
pub fn crossings_join()
    ensures pushed { Joins pushed_law }
    ensures pulled { Joins pulled_law }
{}
