//! Replies by their bytes, and what a short sink keeps of one.
use super::asserts::assert_found;
use sd_base::{Path, Seq};
use sd_io::{MemSink, WriteFailed};
use session_frames::{Refusal, Reply, ReplyBody, write_reply};
use std::alloc::{AllocError, Global};

// Whether a reply is written as these bytes.
fn writes(alloc: Global, reply: &Reply, bytes: &[u8]) -> Result<bool, AllocError> {
    let mut sink = MemSink::new(alloc, 64, Vec::new(alloc))?;
    let done = write_reply(reply, &mut sink);
    Ok(done.is_ok() && sink.bytes() == bytes)
}

// Whether the reply with this body is written as these bytes.
fn writes_body(
    alloc: Global,
    uid: i32,
    id: i64,
    body: ReplyBody,
    bytes: &[u8],
) -> Result<bool, AllocError> {
    let reply = Reply { uid, id, body };
    writes(alloc, &reply, bytes)
}

// Whether a configuration that is replaced is told with its last report, and none of the kind 2.
fn writes_replaced(alloc: Global) -> Result<bool, AllocError> {
    let bytes =
        b"\x10\0\0\0\0\0\0\0\x08\xff\xff\xff\xff\xfe\xff\xff\xff\xff\xff\xff\xff\x09\x08\x07";
    let last = Seq::from_slice(alloc, &[9, 8, 7])?;
    writes_body(alloc, -1, -2, ReplyBody::Replaced(last), bytes)
}

// Whether one that is removed is told so, also with a last report of no bytes, and none of the kind 4.
fn writes_removed(alloc: Global) -> Result<bool, AllocError> {
    let bytes = b"\x0f\0\0\0\0\0\0\0\x09\0\0\0\x80\0\0\0\0\0\0\0\x80\x0a\x04";
    let last = Seq::from_slice(alloc, &[10, 4])?;
    let told = writes_body(alloc, i32::MIN, i64::MIN, ReplyBody::Removed(last), bytes)?;
    let empty = b"\x0d\0\0\0\0\0\0\0\x09\x01\0\0\0\x02\0\0\0\0\0\0\0";
    let empty_told = writes_body(alloc, 1, 2, ReplyBody::Removed(Seq::new(alloc)), empty)?;
    Ok(told && empty_told)
}

#[test]
fn writes_what_became_of_installs_and_removes(rt: HostRuntime) {
    let alloc = rt.alloc();
    let installed = b"\x0d\0\0\0\0\0\0\0\x01\x0a\0\0\0\x07\0\0\0\0\0\0\0";
    assert_found(
        &rt,
        writes_body(alloc, 10, 7, ReplyBody::Installed, installed),
        &"installed",
    );
    assert_found(&rt, writes_replaced(alloc), &"replaced");
    assert_found(&rt, writes_removed(alloc), &"removed");
    let no_config = b"\x0d\0\0\0\0\0\0\0\x05\x01\0\0\0\x02\x01\0\0\0\0\0\0";
    assert_found(
        &rt,
        writes_body(alloc, 1, 258, ReplyBody::NoConfig, no_config),
        &"no configuration",
    );
}

// A reply with a report of three bytes.
fn report(alloc: Global) -> Result<Reply, AllocError> {
    let body = ReplyBody::ReportBytes(Seq::from_slice(alloc, &[9, 8, 7])?);
    Ok(Reply {
        uid: 10,
        id: 7,
        body,
    })
}

// How it is written.
const REPORT: &[u8; 24] = b"\x10\0\0\0\0\0\0\0\x06\x0a\0\0\0\x07\0\0\0\0\0\0\0\x09\x08\x07";

fn writes_report(alloc: Global) -> Result<bool, AllocError> {
    let reply = report(alloc)?;
    writes(alloc, &reply, REPORT)
}

#[test]
fn writes_reports_and_what_stands_for_them(rt: HostRuntime) {
    let alloc = rt.alloc();
    assert_found(&rt, writes_report(alloc), &"a report");
    let client_full = b"\x11\0\0\0\0\0\0\0\x07\x0a\0\0\0\x07\0\0\0\0\0\0\0\x0a\0\0\0";
    assert_found(
        &rt,
        writes_body(alloc, 10, 7, ReplyBody::ClientFull(10), client_full),
        &"client full",
    );
}

// The bytes of a refusal of the install of the client 10 under the id 7: its length, its kind and ids, and these bytes.
fn refusal_bytes(alloc: Global, len: u8, bytes: &[u8]) -> Result<Vec<u8>, AllocError> {
    let mut all = [len].to_vec(alloc)?;
    all.extend_from_slice(b"\0\0\0\0\0\0\0\x03\x0a\0\0\0\x07\0\0\0\0\0\0\0")?;
    all.extend_from_slice(bytes)?;
    Ok(all)
}

// Whether a reply is written as such bytes.
fn writes_refusal(alloc: Global, reply: &Reply, len: u8, bytes: &[u8]) -> Result<bool, AllocError> {
    let all = refusal_bytes(alloc, len, bytes)?;
    writes(alloc, reply, &all)
}

// Whether a refusal of that install is written as these bytes after its kind and ids.
fn refuses(alloc: Global, len: u8, refusal: Refusal, bytes: &[u8]) -> Result<bool, AllocError> {
    let reply = Reply {
        uid: 10,
        id: 7,
        body: ReplyBody::Refused(refusal),
    };
    writes_refusal(alloc, &reply, len, bytes)
}

// Whether a refusal with a path of three numbers is written with each of them.
fn writes_three_numbers(alloc: Global) -> Result<bool, AllocError> {
    let three = Path::from_slice(alloc, &[3, 4, 1001])?;
    let bytes = b"\x03\x03\x03\0\0\0\x04\0\0\0\xe9\x03\0\0";
    refuses(alloc, 27, Refusal::Unsupported(three), bytes)
}

#[test]
fn writes_each_refusal(rt: HostRuntime) {
    let alloc = rt.alloc();
    let too_large = Refusal::TooLarge(262145);
    assert_found(
        &rt,
        refuses(alloc, 18, too_large, b"\x01\x01\0\x04\0"),
        &"too large",
    );
    let wire = Refusal::Wire {
        cause: 6,
        offset: 513,
    };
    assert_found(
        &rt,
        refuses(alloc, 19, wire, b"\x02\x06\x01\x02\0\0"),
        &"wire",
    );
    let link = Refusal::Link {
        number: 9,
        reason: 19,
        value: -3,
    };
    let bytes = b"\x04\x09\x13\xfd\xff\xff\xff\xff\xff\xff\xff";
    assert_found(&rt, refuses(alloc, 24, link, bytes), &"link");
    let none = Refusal::Unsupported(Path::new(alloc));
    assert_found(&rt, refuses(alloc, 15, none, b"\x03\0"), &"no path");
    assert_found(&rt, writes_three_numbers(alloc), &"three numbers");
}

// Whether of a reply these bytes are kept where the sink has this room, and fails at these calls.
fn keeps_of(
    alloc: Global,
    reply: &Reply,
    room: usize,
    fails: &[u64],
    kept: &[u8],
) -> Result<bool, AllocError> {
    let fails = fails.to_vec(alloc)?;
    let mut sink = MemSink::new(alloc, room, fails)?;
    let done = write_reply(reply, &mut sink);
    Ok(done == Err(WriteFailed) && sink.bytes() == kept)
}

// The same of the reply with a report, which has 24 bytes.
fn keeps(alloc: Global, room: usize, fails: &[u64], kept: usize) -> Result<bool, AllocError> {
    let reply = report(alloc)?;
    keeps_of(alloc, &reply, room, fails, &REPORT[..kept.min(24)])
}

#[test]
fn keeps_a_front_where_a_put_fails(rt: HostRuntime) {
    let alloc = rt.alloc();
    for room in 0..24 {
        assert_found(&rt, keeps(alloc, room, &[], room), &room);
    }
    // The first put is the head, of 21 bytes.
    assert_found(&rt, keeps(alloc, 24, &[0], 0), &"the first put");
    assert_found(&rt, keeps(alloc, 24, &[1], 21), &"the second put");
}
