//! What holds of the frames of all byte strings, so that a contract may speak of them.
ghost use Rattle.std.specs.Prelude.{◌≡◌, ℕ, List};
ghost use Rattle.session_frames.specs.Frames.{End, frames_of};
ghost use Rattle.session_frames.specs.declared.frame.Frame.{Frame};

/// Any bytes are a session in one way: they have frames and an end, and no others. It does nothing when it runs.
pub fn bytes_have_one_reading()
    ensures some { (bytes : List ℕ) → (frames : List Frame) × (end : End)
        × frames_of bytes frames end }
    ensures one { (bytes : List ℕ) (frames others : List Frame) (end other : End)
        → frames_of bytes frames end → frames_of bytes others other → (frames ≡ others) × (end ≡ other) }
{}
