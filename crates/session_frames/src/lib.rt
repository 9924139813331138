//! The frames of a recorded session, read one by one, and the framed replies.
#![tactic(auto)]

mod body;
mod frame;
mod laws;
mod log_room;
mod place;
mod reader;
mod reply;
mod writing;

pub use body::time_of;
pub use frame::{
    BAD_FLAG, Frame, FrameError, FrameFault, LATE, LEFT_OVER, SessionFault, TOO_MANY_ATOMS,
    TOO_SHORT,
};
pub use laws::bytes_have_one_reading;
pub use log_room::{LogKind, LogRoom};
pub use reader::FrameReader;
pub use reply::{Refusal, Reply, ReplyBody};
pub use writing::write_reply;
