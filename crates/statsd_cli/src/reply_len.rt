//! How long a reply is where it is written.
ghost use Rattle.std.specs.Prelude.{◌≡◌, ◌+◌, ◌<◌, ◌^◌, length};
ghost use Rattle.session_frames.specs.Replies.{answer_bytes, refusal_bytes, reply_bytes};

use session_frames::{Refusal, Reply, ReplyBody};

/// How many bytes a framed reply has.
pub(crate) fn reply_len(reply: &Reply) -> u64
    ensures { result ≡ length (reply_bytes reply.now) }
{
    21 + body_len(&reply.body)
}

// How many bytes come after the kind, the uid and the id.
fn body_len(body: &ReplyBody) -> u64
    ensures len { result ≡ length (answer_bytes body.now) }
    ensures room { result < 2 ^ 63 }
{
    match body {
        ReplyBody::Refused(refusal) => refusal_len(refusal),
        ReplyBody::ReportBytes(report) | ReplyBody::Replaced(report) | ReplyBody::Removed(report) =>
            size(report.as_slice()),
        ReplyBody::ClientFull(_) => 4,
        ReplyBody::Installed | ReplyBody::NoConfig => 0,
    }
}

// How many bytes a refusal has.
fn refusal_len(refusal: &Refusal) -> u64
    ensures len { result ≡ length (refusal_bytes refusal.now) }
    ensures room { result < 2 ^ 63 }
{
    match refusal {
        Refusal::TooLarge(_) => 5,
        Refusal::Wire { .. } => 6,
        Refusal::Unsupported(path) => 2 + 4 * path.as_slice().len() as u64,
        Refusal::Link { .. } => 11,
    }
}

// The length of bytes in memory, which leaves room for what stands in front of them.
fn size(bytes: &[u8]) -> u64
    ensures len { result ≡ length bytes.now }
    ensures room { result < 2 ^ 63 }
{
    bytes.len() as u64
}
