//! The frames of the log.
ghost use Rattle.std.specs.Prelude.{◌≡◌, ◌↔◌, IsTrue};
ghost use Rattle.atom_record.specs.Pulled.{IsPulled, is_pull_id};

use crate::Atom;
use sd_base::Seq;

/// What a recorded pull gave.
#[derive(Debug, Drop)]
pub enum PullOutcome {
    /// The atoms of a snapshot.
    Atoms(Seq<Atom>),
    /// The pull failed.
    Failed,
}

/// One frame of the log. Times are in nanoseconds, below 2^63.
#[derive(Debug, Drop)]
pub enum LogFrame {
    /// Time passed.
    Tick {
        /// The time that it is now.
        at: u64,
    },
    /// An atom was logged.
    AtomAt {
        /// When the atom was logged.
        at: u64,
        /// What was logged.
        atom: Atom,
    },
    /// A snapshot of a pulled atom was recorded.
    Pull {
        /// When the pull was made.
        at: u64,
        /// The id of the atoms that were asked for.
        id: u32,
        /// What the pull gave.
        outcome: PullOutcome,
    },
}

/// Whether atoms of this id are pulled. All others are pushed.
pub fn is_pulled(id: u32) -> bool
    ensures exact { IsTrue result ↔ IsPulled id }
    ensures test { result ≡ is_pull_id id }
{
    matches!(id, 10_000..100_000 | 150_000..200_000)
}
