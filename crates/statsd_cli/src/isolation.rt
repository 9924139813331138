//! What holds of all sessions, so that a contract may say it: no client's replies depend on another client.
ghost use Rattle.std.specs.Prelude.{Bool};
ghost use Rattle.atom_record.specs.declared.atom.Atom.{Atom};
ghost use Rattle.config_types.specs.declared.matcher.SimpleMatcher.{SimpleMatcher};
ghost use Rattle.hub_meaning.specs.ClientIsolation.{OwnFramesDecide, EqualOwnFramesEqualReplies};

/// Under each judge, the replies to a client are those of the session of its own frames alone, which are the log and
/// its commands. So in two sessions with the same own frames they are the same. It does nothing when it runs.
pub fn clients_are_isolated()
    ensures own { (says : SimpleMatcher → Atom → Bool) → OwnFramesDecide says }
    ensures equal { (says : SimpleMatcher → Atom → Bool) → EqualOwnFramesEqualReplies says }
{}
