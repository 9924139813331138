//! What holds of all that a producer of samples or of events stands for, so that a contract may say it.
ghost use Rattle.gauge_metric.specs.EventStands.{event_law};
ghost use Rattle.gauge_metric.specs.GaugeStands.{gauge_law};
ghost use Rattle.gauge_metric.specs.PulledStands.{pulled_law};
ghost use Rattle.metric_producer.specs.Joining.{Joins};

/// Two crossings with nothing between them mean what one that covers both means. It does nothing when it
/// runs.
pub fn crossings_join()
    ensures pushed { Joins gauge_law }
    ensures pulled { Joins pulled_law }
    ensures events { Joins event_law }
{}
