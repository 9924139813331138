//! The reader of frames.
ghost use Rattle.std.specs.Prelude.{◌≡◌, ◌+◌, ◌-◌, ◌^◌, ◌<◌, ◌≤◌, [], length, take, vec_len, IsTrue, IfOk, IfErr, OnOk, OnErr, IfSome, IfNone, Some, None, Ok};
ghost use Rattle.sd_io.specs.Causes.{IsFrontOf, Takes};
ghost use Rattle.session_frames.specs.declared.frame.Frame.TheVariants.{Log};
ghost use Rattle.session_frames.specs.LogRooms.{frame_in};
ghost use Rattle.session_frames.specs.Faultless.{StandsAfter};
ghost use Rattle.session_frames.specs.FrameLimits.{most_pending};
ghost use Rattle.session_frames.specs.Frames as frames;
ghost use Rattle.session_frames.specs.Reader.{unread, resumed_at, IsBeforeEnd, GivesFrame, GivesLog, Refuses, HasReadCause};
ghost use Rattle.session_frames.specs.Bodies.{FindsNext, IsOutside, StopsShort, TakesNext, TakesSome};

use crate::body::{BodyError, next_clock, read_frame};
use crate::log_room::{LogKind, LogRoom};
use crate::place::Place;
use crate::{Frame, FrameError, SessionFault};
use sd_io::Source;
use std::alloc::{AllocError, Global};
use std::marker::Model;

// The most frames of a session.
const MAX_FRAMES: u64 = 1 << 32;

// The most bytes of a frame after its length.
const MAX_BODY: u32 = 1 << 20;

// The most bytes that are asked of a source at once.
const PIECE: usize = 65_536;

/// Reads the frames of a session. It takes the bytes of one frame at a time, and a call that fails takes the reader.
#[derive(Drop)]
pub struct FrameReader {
    alloc: Global,
    room: Vec<u8>,
    place: Place,
    ended: bool,
}

impl Model for FrameReader {
    ghost use Rattle.std.specs.Prelude.{[]};
    ghost use Rattle.session_frames.specs.Reader.{Reading, IsAtRest};

    ghost Value = { Reading };

    // Its room is no part of it: what a call takes there is judged in that call.
    ghost view = { λ s. record { pending = []; place = s.place; ended = s.ended } };

    ghost invariant = { λ s. IsAtRest s.place };
}

impl FrameReader {
    /// A reader that has taken nothing. It takes no memory yet.
    pub fn new(alloc: Global) -> FrameReader
        ensures { result ≡ unread }
    {
        FrameReader::resumed(alloc, 0)
    }

    /// The same, of a session that goes on from another one: no frame of the log may come before this time, the last
    /// one of that session. Bytes and frames count from 0.
    pub fn resumed(alloc: Global, clock: u64) -> FrameReader
        ensures { result ≡ record unread { place = resumed_at clock } }
    {
        FrameReader {
            alloc,
            room: Vec::new(alloc),
            place: Place {
                bytes: 0,
                clock,
                frames: 0,
            },
            ended: false,
        }
    }

    /// How many bytes it holds that were taken and belong to no frame that it gave: none between two calls.
    pub fn pending(&self) -> usize
        ensures held { result ≡ length self.now.pending }
        ensures few { result ≤ most_pending }
    {
        let _ = &self.room;
        0
    }

    /// The next frame, or `None` where the source ended at a frame's end. Of what the reader holds, the bytes of
    /// configurations and the texts of atoms are copied.
    pub fn next<S: Source>(
        mut self,
        src: &mut S,
    ) -> Result<(FrameReader, Option<Frame>), FrameError>
        // What stands next is given, and no byte after it is taken.
        ensures gives { IsBeforeEnd self
            → IfOk result (λ r. GivesFrame (S.state src.old) (S.state src.new) self r.0 r.1) }
        ensures faultless { IfOk result (λ r.
            IfSome r.1 (StandsAfter self.place.clock)) }

        // Each error has its cause.
        ensures refuses { IsBeforeEnd self
            → IfErr result (λ e. Refuses (S.state src.old) (S.state src.new) self e) }
        ensures cause { HasReadCause (S.state src.old) (S.state src.new) result }

        // The end stays the end, whatever source comes.
        ensures again { IsTrue self.ended → (result ≡ Ok (self, None)) × (src.new ≡ src.old) }
    {
        let frame = self.read(src)?;
        Ok((self, frame))
    }

    /// The same, where the reader stands: nothing of it is moved. After an error it is of no use. A frame that
    /// stands whole in what the source holds is read where it stands.
    pub fn read<S: Source>(&mut self, src: &mut S) -> Result<Option<Frame>, FrameError>
        ensures gives { IsBeforeEnd self.old
            → IfOk result (GivesFrame (S.state src.old) (S.state src.new) self.old self.new) }
        ensures faultless { IfOk result (λ found.
            IfSome found (StandsAfter self.old.place.clock)) }
        ensures refuses { IsBeforeEnd self.old
            → IfErr result (λ e. Refuses (S.state src.old) (S.state src.new) self.old e) }
        ensures cause { HasReadCause (S.state src.old) (S.state src.new) result }
        ensures again { IsTrue self.old.ended
            → (result ≡ Ok None) × (self.new ≡ self.old) × (src.new ≡ src.old) }
    {
        if self.ended {
            return Ok(None);
        }
        let held = src.held();
        let count = needed(&self.place, held);
        if held.len() < count {
            return self.read_on(src);
        }
        let found = next_in(self.alloc, &self.place, &held[..count]);
        if !src.skip(count) {
            return self.read_on(src);
        }
        let Some(frame) = found? else {
            self.ended = true;
            return Ok(None);
        };
        self.place = place_after(&self.place, count, &frame);
        Ok(Some(frame))
    }

    /// Takes what stands next, where it is a tick or an atom that stands whole in what the source holds and has no
    /// fault, and reads it in a room. The answer is its kind. Where nothing is taken, the reader and the source stay
    /// as they are.
    #[inline(always)]
    pub fn take_log<S: Source>(&mut self, src: &mut S, room: &mut LogRoom) -> Option<LogKind>
        ensures gives { IfSome result
            (GivesLog (S.state src.old) (S.state src.new) self.old self.new room.new) }
        ensures faultless { IfSome result
            (λ kind. StandsAfter self.old.place.clock (Log (frame_in kind room.new))) }
        ensures nothing { IfNone result ((self.new ≡ self.old) × (S.state src.new ≡ S.state src.old)) }
        ensures no_fault { (S.state src.new).faults ≡ (S.state src.old).faults }
    {
        if self.ended {
            return None;
        }
        let held = src.held();
        let count = needed(&self.place, held);
        if held.len() < count {
            return None;
        }
        let kind = log_in(self.alloc, room, &self.place, &held[..count])?;
        if !src.skip(count) {
            return None;
        }
        self.place = place_at(&self.place, count, room.time(kind));
        Some(kind)
    }

    // The same as `read`, where what stands next isn't whole in what the source holds: its bytes are taken to the room.
    #[cold]
    #[inline(never)]
    fn read_on<S: Source>(&mut self, src: &mut S) -> Result<Option<Frame>, FrameError>
        ensures gives { IsBeforeEnd self.old
            → IfOk result (GivesFrame (S.state src.old) (S.state src.new) self.old self.new) }
        ensures faultless { IfOk result (λ found.
            IfSome found (StandsAfter self.old.place.clock)) }
        ensures refuses { IsBeforeEnd self.old
            → IfErr result (λ e. Refuses (S.state src.old) (S.state src.new) self.old e) }
        ensures cause { HasReadCause (S.state src.old) (S.state src.new) result }
    {
        let count = take_next(&mut self.room, &self.place, src)?;
        let held = &self.room[..count];
        let Some(frame) = next_in(self.alloc, &self.place, held)? else {
            self.ended = true;
            return Ok(None);
        };
        self.place = place_after(&self.place, count, &frame);
        Ok(Some(frame))
    }
}

// The place after a frame of so many bytes.
fn place_after(place: &Place, count: usize, frame: &Frame) -> Place
    requires in_bytes { place.now.bytes + count < 2 ^ 64 }
    requires in_frames { place.now.frames + 1 < 2 ^ 64 }
    ensures { result
        ≡ frames.moved_by place.now count (frames.clock_after place.now.clock frame.now) }
{
    Place {
        bytes: place.bytes + count as u64,
        clock: next_clock(place.clock, frame),
        frames: place.frames + 1,
    }
}

// The place after a frame of the log of so many bytes and this time.
fn place_at(place: &Place, count: usize, time: u64) -> Place
    requires in_bytes { place.now.bytes + count < 2 ^ 64 }
    requires in_frames { place.now.frames + 1 < 2 ^ 64 }
    ensures { result ≡ frames.moved_by place.now count time }
{
    Place {
        bytes: place.bytes + count as u64,
        clock: time,
        frames: place.frames + 1,
    }
}

// Takes the bytes of what stands next in a source to the front of the room, and says how many: as many as the judgement
// asks for, or all that there are.
fn take_next<S: Source>(room: &mut Vec<u8>, place: &Place, src: &mut S) -> Result<usize, FrameError>
    ensures takes { IfOk result (λ count.
        TakesNext (S.state src.old) (S.state src.new) place.now (take count room.new.items)) }
    ensures within { IfOk result (λ count. count ≤ vec_len room.new) }
    ensures breaks { IfErr result (λ e. StopsShort (S.state src.old) (S.state src.new) place.now e) }
    ensures cause { HasReadCause (S.state src.old) (S.state src.new) result }
{
    let mut held = 0;
    'reads: loop {
        let goal = needed(place, &room[..held]);
        if held >= goal {
            return Ok(held);
        }
        let count = take_some(room, held, goal, src)?;
        if count == 0 {
            return Ok(held);
        }
        held += count;
    }
}

// How many bytes the judgement of what begins so asks for. A length is judged before its bytes are asked for.
#[tactic(auto, unfolding(crate::specs::Frames::needed))]
fn needed(place: &Place, held: &[u8]) -> usize
    ensures { result ≡ frames.needed place.now held.now }
{
    if place.frames >= MAX_FRAMES {
        return 1;
    }
    if held.len() < 4 {
        return 4;
    }
    let counted = size_of(held);
    if counted > MAX_BODY {
        return 4;
    }
    4 + counted as usize
}

// The length that stands at the front.
fn size_of(held: &[u8]) -> u32
    requires { 4 ≤ length held.now }
    ensures { result ≡ frames.size_at held.now }
{
    u32::from_le_bytes([held[0], held[1], held[2], held[3]])
}

// Takes bytes by one call of the source behind those that are held, up to so many in all. The room grows with the bytes
// that come: a length alone asks for no memory.
fn take_some<S: Source>(
    room: &mut Vec<u8>,
    held: usize,
    goal: usize,
    src: &mut S,
) -> Result<usize, FrameError>
    requires within { held ≤ vec_len room.old }
    requires some { held < goal }
    ensures takes { IfOk result (λ count. TakesSome (S.state src.old) (S.state src.new)
        (take held room.old.items) (take (held + count) room.new.items) (goal - held) count) }
    ensures nothing { OnErr result (Takes (S.state src.old) (S.state src.new) []) }
    ensures outside { IfErr result IsOutside }
    ensures cause { HasReadCause (S.state src.old) (S.state src.new) result }
{
    let end = goal.min(held + PIECE);
    make_room(room, end)?;
    Ok(src.read(&mut room[held..end])?)
}

// Room for so many bytes at least; what stands in it stays.
fn make_room(room: &mut Vec<u8>, size: usize) -> Result<(), AllocError>
    ensures enough { OnOk result (size ≤ vec_len room.new) }
    ensures kept { OnOk result (IsFrontOf room.old.items room.new.items) }
{
    if size <= room.len() {
        return Ok(());
    }
    room.resize(size, 0)
}

// What stands next in what is left: a frame, or nothing at the end.
#[tactic(auto, unfolding(crate::specs::Frames::next_frame))]
fn next_in(alloc: Global, place: &Place, left: &[u8]) -> Result<Option<Frame>, FrameError>
    ensures finds { FindsNext place.now result (frames.next_frame place.now left.now) }
    ensures sound { IfOk result (λ found.
        IfSome found (StandsAfter place.now.clock)) }
{
    if left.is_empty() {
        return Ok(None);
    }
    if place.frames >= MAX_FRAMES {
        return Err(bad(place, SessionFault::TooManyFrames));
    }
    if left.len() < 4 {
        return Err(bad(place, SessionFault::Cut));
    }
    let size = size_of(left);
    if size == 0 {
        return Err(bad(place, SessionFault::BadLength));
    }
    if size > MAX_BODY {
        return Err(bad(place, SessionFault::TooLong(size)));
    }
    let size = size as usize;
    let after = &left[4..];
    if after.len() < size {
        return Err(bad(place, SessionFault::Cut));
    }
    match read_frame(alloc, place.clock, &after[..size]) {
        Ok(frame) => Ok(Some(frame)),
        Err(BodyError::Fault(fault)) => Err(bad(place, SessionFault::from(fault))),
        Err(BodyError::Memory) => Err(FrameError::Memory),
    }
}

// Reads what stands next in what is left, where it is a tick or an atom that is whole and has no fault.
#[inline(always)]
#[tactic(auto, unfolding(crate::specs::Frames::next_frame))]
fn log_in(alloc: Global, room: &mut LogRoom, place: &Place, left: &[u8]) -> Option<LogKind>
    ensures finds { IfSome result (λ kind.
        FindsNext place.now (Ok (Some (Log (frame_in kind room.new)))) (frames.next_frame place.now left.now)) }
    ensures sound { IfSome result
        (λ kind. StandsAfter place.now.clock (Log (frame_in kind room.new))) }
{
    if place.frames >= MAX_FRAMES || left.len() < 4 {
        return None;
    }
    let size = size_of(left);
    if size == 0 || size > MAX_BODY {
        return None;
    }
    let size = size as usize;
    let after = &left[4..];
    if after.len() < size {
        return None;
    }
    room.read(alloc, place.clock, &after[..size])
}

// The session has this fault, at the first byte of what stands next.
fn bad(place: &Place, fault: SessionFault) -> FrameError
    ensures { result ≡ FrameError.Session place.now.bytes fault }
{
    FrameError::Session {
        at: place.bytes,
        fault,
    }
}
