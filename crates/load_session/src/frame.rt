//! One frame of the session.
ghost use Rattle.std.specs.Prelude.{◌≡◌, IfOk};
ghost use Rattle.load_session.specs.Frames.{loaded_frame, int5};

use atom_record::{Atom, AtomField, LogFrame, Value};
use sd_base::Seq;
use session_frames::Frame;
use std::alloc::{AllocError, Global};

/// One frame of the session. Times are in nanoseconds.
#[derive(Clone, Copy)]
pub enum LoadFrame {
    /// Time passed.
    Tick { at: u64 },
    /// An atom of id 5 with this number in its field 1.
    Int5 { at: u64, value: i32 },
    /// A client installs the configuration of the session.
    Install { uid: i32 },
    /// A client asks for a report; with the flag, the open bucket is cut at the clock.
    Report { uid: i32, current: bool },
}

// The id of the configuration, for each client.
const CONFIG_ID: i64 = 1;

// The configuration: a count metric over atoms of id 5, by their field 1, with a bound of 16.
const CONFIG: [u8; 27] = [
    0x3a, 0x06, 0x08, 0x01, 0x12, 0x02, 0x08, 0x05, 0x1a, 0x11, 0x08, 0x64, 0x10, 0x01, 0x22, 0x06,
    0x08, 0x05, 0x1a, 0x02, 0x08, 0x01, 0x28, 0x02, 0xc8, 0x3e, 0x10,
];

impl LoadFrame {
    /// The frame as the hub takes it.
    pub fn frame(self, alloc: Global) -> Result<Frame, AllocError>
        ensures { IfOk result (λ frame. frame ≡ loaded_frame self) }
    {
        match self {
            LoadFrame::Tick { at } => Ok(Frame::Log(LogFrame::Tick { at })),
            LoadFrame::Int5 { at, value } => {
                let atom = int5(alloc, value)?;
                Ok(Frame::Log(LogFrame::AtomAt { at, atom }))
            }
            LoadFrame::Install { uid } => {
                let config = Seq::from_slice(alloc, &CONFIG)?;
                Ok(Frame::Install {
                    uid,
                    id: CONFIG_ID,
                    config,
                })
            }
            LoadFrame::Report { uid, current } => Ok(Frame::Report {
                uid,
                id: CONFIG_ID,
                include_current: current,
            }),
        }
    }
}

// An atom of id 5 with a number in its field 1.
fn int5(alloc: Global, value: i32) -> Result<Atom, AllocError>
    ensures { IfOk result (λ atom. atom ≡ int5 value) }
{
    let mut fields = Seq::new(alloc);
    fields.push(AtomField {
        field: 1,
        index: 0,
        sub: 0,
        flags: 0,
        value: Value::Int(value),
    })?;
    Ok(Atom { id: 5, fields })
}
