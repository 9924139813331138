//! What holds of all sessions, so that a contract may say it: a session that is cut anywhere is answered as if it
//! hadn't been cut.
ghost use Rattle.statsd_cli.specs.More.{SessionsMayBeCut};

/// The replies to a session are those to its frames before a cut, and then those to the frames after it, each answered
/// after all frames before it. It does nothing when it runs.
pub fn sessions_may_be_cut()
    ensures { SessionsMayBeCut }
{}
