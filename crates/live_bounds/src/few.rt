//! The questions of a frame, counted by what is live.
ghost use Rattle.live_bounds.specs.LiveBounds.{ConditionsAskFew, JudgeIsAskedFew};

use hub_core::Hub;
use matcher_eval::Judge;

/// Whatever frames a hub stands for: what its rows may ask at the next one is at most what may be asked by all that is
/// live after these frames. It does nothing when it runs.
pub fn questions_are_few<J: Judge>(hub: &Hub<J>)
    // The questions of conditions: each live configuration has its own.
    ensures conditions { ConditionsAskFew J.says hub.now }

    // The questions of the judge: one for each different simple matcher of the atom's id.
    ensures judge { JudgeIsAskedFew J.says hub.now }
{
    hub.show_live();
}
