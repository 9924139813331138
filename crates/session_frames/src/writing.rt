//! Replies as framed bytes.
ghost use Rattle.std.specs.Prelude.{◌≡◌, ◌<◌, ◌^◌, length};
ghost use Rattle.std.specs.List.{flat_map};
ghost use Rattle.std.specs.Int.{w32, to_le_bytes};
ghost use Rattle.sd_io.specs.Causes.{IsPut};
ghost use Rattle.session_frames.specs.ReplyLayout.{head_bytes};
ghost use Rattle.session_frames.specs.Replies.{answer_bytes, kind_of, refusal_bytes, reply_bytes};

use crate::reply::{
    CLIENT_FULL, INSTALLED, LINK, NO_CONFIG, REFUSED, REMOVED, REPLACED, REPORT_BYTES, TOO_LARGE,
    UNSUPPORTED, WIRE,
};
use crate::{Refusal, Reply, ReplyBody};
use sd_io::{Sink, WriteFailed};

/// Writes a reply with its length in front. It takes no memory.
pub fn write_reply<K: Sink>(reply: &Reply, out: &mut K) -> Result<(), WriteFailed>
    ensures { IsPut (K.state out.old) (K.state out.new) result (reply_bytes reply.now) }
{
    out.put(&head(reply))?;
    write_body(&reply.body, out)
}

// The length, the kind, the uid and the configuration's id.
fn head(reply: &Reply) -> [u8; 21]
    ensures { result ≡ head_bytes reply.now }
{
    let mut head = [0; 21];
    head[..8].copy_from_slice(&(13 + body_len(&reply.body)).to_le_bytes());
    head[8] = kind(&reply.body);
    head[9..13].copy_from_slice(&reply.uid.to_le_bytes());
    head[13..].copy_from_slice(&reply.id.to_le_bytes());
    head
}

// The kind byte of an answer.
fn kind(body: &ReplyBody) -> u8
    ensures { result ≡ kind_of body.now }
{
    match body {
        ReplyBody::Installed => INSTALLED,
        ReplyBody::Replaced(_) => REPLACED,
        ReplyBody::Refused(_) => REFUSED,
        ReplyBody::Removed(_) => REMOVED,
        ReplyBody::NoConfig => NO_CONFIG,
        ReplyBody::ReportBytes(_) => REPORT_BYTES,
        ReplyBody::ClientFull(_) => CLIENT_FULL,
    }
}

// How many bytes come after the kind, the uid and the id.
fn body_len(body: &ReplyBody) -> u64
    ensures len { result ≡ length (answer_bytes body.now) }
    ensures room { result < 2 ^ 63 }
{
    match body {
        ReplyBody::Refused(refusal) => refusal_len(refusal),
        ReplyBody::ReportBytes(report) | ReplyBody::Replaced(report) | ReplyBody::Removed(report) =>
            size(report.as_slice()),
        ReplyBody::ClientFull(_) => 4,
        ReplyBody::Installed | ReplyBody::NoConfig => 0,
    }
}

// How many bytes a refusal has.
fn refusal_len(refusal: &Refusal) -> u64
    ensures len { result ≡ length (refusal_bytes refusal.now) }
    ensures room { result < 2 ^ 63 }
{
    match refusal {
        Refusal::TooLarge(_) => 5,
        Refusal::Wire { .. } => 6,
        Refusal::Unsupported(path) => 2 + 4 * path.as_slice().len() as u64,
        Refusal::Link { .. } => 11,
    }
}

// The length of bytes in memory, which leaves room for what stands in front of them.
fn size(bytes: &[u8]) -> u64
    ensures len { result ≡ length bytes.now }
    ensures room { result < 2 ^ 63 }
{
    bytes.len() as u64
}

// Writes what comes after the kind, the uid and the id.
fn write_body<K: Sink>(body: &ReplyBody, out: &mut K) -> Result<(), WriteFailed>
    ensures { IsPut (K.state out.old) (K.state out.new) result (answer_bytes body.now) }
{
    match body {
        ReplyBody::Refused(refusal) => write_refusal(refusal, out),
        ReplyBody::ReportBytes(report) | ReplyBody::Replaced(report) | ReplyBody::Removed(report) =>
            out.put(report.as_slice()),
        ReplyBody::ClientFull(most) => out.put(&most.to_le_bytes()),
        ReplyBody::Installed | ReplyBody::NoConfig => Ok(()),
    }
}

// Writes a class byte, and what the class says.
fn write_refusal<K: Sink>(refusal: &Refusal, out: &mut K) -> Result<(), WriteFailed>
    ensures { IsPut (K.state out.old) (K.state out.new) result (refusal_bytes refusal.now) }
{
    match refusal {
        Refusal::TooLarge(size) => {
            let [a, b, c, d] = size.to_le_bytes();
            out.put(&[TOO_LARGE, a, b, c, d])
        }
        Refusal::Wire { cause, offset } => {
            let [a, b, c, d] = offset.to_le_bytes();
            out.put(&[WIRE, *cause, a, b, c, d])
        }
        Refusal::Unsupported(path) => {
            let numbers = path.as_slice();
            out.put(&[UNSUPPORTED, numbers.len() as u8])?;
            write_path(numbers, out)
        }
        Refusal::Link {
            number,
            reason,
            value,
        } => {
            let [a, b, c, d, e, f, g, h] = value.to_le_bytes();
            out.put(&[LINK, *number, *reason, a, b, c, d, e, f, g, h])
        }
    }
}

// Writes the numbers of a path, four bytes each.
fn write_path<K: Sink>(path: &[u32], out: &mut K) -> Result<(), WriteFailed>
    ensures { IsPut (K.state out.old) (K.state out.new) result (flat_map (to_le_bytes w32) path.now) }
{
    for number in path {
        out.put(&number.to_le_bytes())?;
    }
    Ok(())
}
