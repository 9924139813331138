//! How ends of buckets see a frame of the log.
ghost use Rattle.std.specs.Prelude.{◌≡◌};
ghost use Rattle.metric_meaning.specs.Histories.{is_pull};

use atom_record::LogFrame;

/// Whether a frame of the log is a pull.
pub fn comes_by_pull(frame: &LogFrame) -> bool
    ensures { result ≡ is_pull frame.now }
{
    matches!(frame, LogFrame::Pull { .. })
}
