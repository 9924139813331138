//! What holds of all that a lane stands for, so that a contract may say it.
ghost use Rattle.metric_lane.specs.LaneJoining.{CatchesUp};
ghost use Rattle.metric_producer.specs.Joining.{Joins};

use metric_producer::Producer;

/// A run of frames that bring nothing means what the one frame means that stands for all, where two crossings with
/// nothing between them mean what one that covers both means. It does nothing when it runs.
pub fn frames_join<P: Producer>()
    ensures { Joins P.law → CatchesUp P.law }
{}
