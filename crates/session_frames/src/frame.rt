//! What a session is made of, and what ends one.
use atom_record::{Bytes, LogFrame};
use sd_io::ReadFailed;
use std::alloc::AllocError;
use thiserror::Error;

/// One frame of a session: one step of the log, or one command of a client.
#[derive(Debug, Drop)]
pub enum Frame {
    /// Something was logged.
    Log(LogFrame),
    /// A client installs a configuration under an id of its own.
    Install {
        uid: i32,
        id: i64,
        config: Bytes,
    },
    /// A client takes a configuration out.
    Remove {
        uid: i32,
        id: i64,
    },
    /// A client asks for a report; with the flag, the open bucket is cut at the clock.
    Report {
        uid: i32,
        id: i64,
        include_current: bool,
    },
}

// The kinds of frames, by their numbers.
pub(crate) const TICK: u8 = 1;

pub(crate) const ATOM: u8 = 2;

pub(crate) const PULL: u8 = 3;

pub(crate) const INSTALL: u8 = 16;

pub(crate) const REMOVE: u8 = 17;

pub(crate) const REPORT: u8 = 18;

/// Why the bytes that a length counts are no frame.
#[derive(Clone, Copy)]
pub enum FrameFault {
    /// There are none.
    BadLength,
    /// There is no such kind of frame.
    UnknownKind(u8),
    /// The frame's body isn't of its kind's form, for one of the reasons below.
    BadBody(u8),
    /// An atom isn't well-formed, with the reason's number.
    BadAtom(u8),
    /// The frame's time is below the one before: the previous time, and this one, in nanoseconds.
    TimeBackwards(u64, u64),
}

/// The body is too short for its kind.
pub const TOO_SHORT: u8 = 1;

/// Bytes are left over after the body.
pub const LEFT_OVER: u8 = 2;

/// A flag is neither 0 nor 1.
pub const BAD_FLAG: u8 = 3;

/// A time is 2^63 nanoseconds or more.
pub const LATE: u8 = 4;

/// A recorded pull has more than 200 atoms.
pub const TOO_MANY_ATOMS: u8 = 5;

/// Why a session can't be read on: the fault of what stands next in it.
#[derive(Clone, Copy, Debug, Error)]
pub enum SessionFault {
    /// The bytes end inside a frame.
    #[error("cut")]
    Cut,
    /// A frame's length is above the limit.
    #[error("too long: {0} bytes")]
    TooLong(u32),
    /// A frame's length is 0.
    #[error("bad length")]
    BadLength,
    /// There is no such kind of frame.
    #[error("unknown kind {0}")]
    UnknownKind(u8),
    /// A frame's body isn't of its kind's form, for one of the reasons above.
    #[error("bad body {0}")]
    BadBody(u8),
    /// An atom isn't well-formed, with the reason's number.
    #[error("bad atom {0}")]
    BadAtom(u8),
    /// A log time is below the one before: the previous time, and this one, in nanoseconds.
    #[error("time backwards: {1} after {0}")]
    TimeBackwards(u64, u64),
    /// There are 2^32 frames before it.
    #[error("too many frames")]
    TooManyFrames,
}

impl From<FrameFault> for SessionFault {
    ghost use Rattle.std.specs.Prelude.{◌≡◌};
    ghost use Rattle.session_frames.specs.SessionFaults.{session_fault};

    ghost from_gives = { λ fault e. e ≡ session_fault fault };

    fn from(fault: FrameFault) -> SessionFault {
        match fault {
            FrameFault::BadLength => SessionFault::BadLength,
            FrameFault::UnknownKind(kind) => SessionFault::UnknownKind(kind),
            FrameFault::BadBody(reason) => SessionFault::BadBody(reason),
            FrameFault::BadAtom(reason) => SessionFault::BadAtom(reason),
            FrameFault::TimeBackwards(last, now) => SessionFault::TimeBackwards(last, now),
        }
    }
}

/// Why a reader gave no frame.
#[derive(Debug, Drop, Error)]
pub enum FrameError {
    /// The session has a fault, at a frame whose first byte has this offset.
    #[error("bad session at {at}: {fault}")]
    Session { at: u64, fault: SessionFault },
    /// The source failed.
    #[error("the source failed")]
    Read,
    /// Memory was wanting.
    #[error("out of memory")]
    Memory,
}

impl From<AllocError> for FrameError {
    ghost use Rattle.std.specs.Prelude.{◌≡◌};
    ghost use Rattle.session_frames.specs.declared.frame.FrameError.TheVariants.{Memory};

    ghost from_gives = { λ _ e. e ≡ Memory };

    fn from(_: AllocError) -> FrameError {
        FrameError::Memory
    }
}

impl From<ReadFailed> for FrameError {
    ghost use Rattle.std.specs.Prelude.{◌≡◌};
    ghost use Rattle.session_frames.specs.declared.frame.FrameError.TheVariants.{Read};

    ghost from_gives = { λ _ e. e ≡ Read };

    fn from(_: ReadFailed) -> FrameError {
        FrameError::Read
    }
}
