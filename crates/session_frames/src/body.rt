//! One frame, read from the bytes of its content.
ghost use Rattle.std.specs.Prelude.{◌≡◌, ◌<◌, ◌≤◌, length, All, IfOk, OnOk};
ghost use Rattle.std.specs.Int.{w16, w32, w64};
ghost use Rattle.sd_base.specs.Reads.{GivesBy, many};
ghost use Rattle.atom_record.specs.Id.{IsAtomId};
ghost use Rattle.atom_record.specs.AtomSound.{HasNoFault};
ghost use Rattle.atom_record.specs.AtomReading.{atom_at};
ghost use Rattle.session_frames.specs.Faultless.{IsFaultless, IsInTime, IsPulledAtom, IsOutcome};
ghost use Rattle.session_frames.specs.FrameReading as frames;
ghost use Rattle.session_frames.specs.Frames.{clock_after};
ghost use Rattle.session_frames.specs.FrameLimits.{first_late_time};
ghost use Rattle.session_frames.specs.Bodies.{fault_in};

use crate::frame::{
    ATOM, BAD_FLAG, INSTALL, LATE, LEFT_OVER, PULL, REMOVE, REPORT, TICK, TOO_MANY_ATOMS, TOO_SHORT,
};
use crate::{Frame, FrameFault};
use atom_record::{
    Atom, AtomFault, BAD_ID, LogFrame, MAX_BYTES, OTHER_ID, PullOutcome, is_atom_id, parse_atom,
};
use sd_base::{Seq, split_counted, split_u16, split_u32, split_u64};
use std::alloc::{AllocError, Global};

// The first time that is too late to be one.
const FIRST_LATE_TIME: u64 = 1 << 63;

// The most atoms of a recorded pull.
const MAX_ATOMS: u16 = 200;

/// Why a frame wasn't read.
#[derive(Drop)]
pub enum BodyError {
    Fault(FrameFault),
    Memory,
}

impl From<AllocError> for BodyError {
    ghost use Rattle.std.specs.Prelude.{◌≡◌};
    ghost use Rattle.session_frames.specs.declared.body.BodyError.TheVariants.{Memory};

    ghost from_gives = { λ _ e. e ≡ Memory };

    fn from(_: AllocError) -> BodyError {
        BodyError::Memory
    }
}

// The body isn't of its kind's form.
fn bad_body(reason: u8) -> BodyError
    ensures { result ≡ BodyError.Fault (FrameFault.BadBody reason) }
{
    BodyError::Fault(FrameFault::BadBody(reason))
}

// An atom isn't well-formed.
fn bad_atom(reason: u8) -> BodyError
    ensures { result ≡ BodyError.Fault (FrameFault.BadAtom reason) }
{
    BodyError::Fault(FrameFault::BadAtom(reason))
}

// A number of two bytes, low byte first.
fn read_u16(bytes: &[u8]) -> Result<(u16, &[u8]), BodyError>
    ensures { GivesBy fault_in (λ x. (x.0, x.1.now)) result (frames.uint_at w16 bytes.now) }
{
    split_u16(bytes).ok_or(bad_body(TOO_SHORT))
}

// A number of four bytes, low byte first.
fn read_u32(bytes: &[u8]) -> Result<(u32, &[u8]), BodyError>
    ensures { GivesBy fault_in (λ x. (x.0, x.1.now)) result (frames.uint_at w32 bytes.now) }
{
    split_u32(bytes).ok_or(bad_body(TOO_SHORT))
}

// A number of eight bytes, low byte first.
fn read_u64(bytes: &[u8]) -> Result<(u64, &[u8]), BodyError>
    ensures { GivesBy fault_in (λ x. (x.0, x.1.now)) result (frames.uint_at w64 bytes.now) }
{
    split_u64(bytes).ok_or(bad_body(TOO_SHORT))
}

/// A time in nanoseconds.
#[tactic(auto, unfolding(crate::specs::FrameReading::time_at))]
#[inline(always)]
pub fn read_time(bytes: &[u8]) -> Result<(u64, &[u8]), BodyError>
    ensures exact { GivesBy fault_in (λ x. (x.0, x.1.now)) result (frames.time_at bytes.now) }
    ensures early { IfOk result (λ x. x.0 < first_late_time) }
{
    let (at, rest) = read_u64(bytes)?;
    if at >= FIRST_LATE_TIME {
        return Err(bad_body(LATE));
    }
    Ok((at, rest))
}

// A flag, 0 or 1.
fn read_flag(bytes: &[u8]) -> Result<(bool, &[u8]), BodyError>
    ensures { GivesBy fault_in (λ x. (x.0, x.1.now)) result (frames.flag_at bytes.now) }
{
    match bytes {
        [] => Err(bad_body(TOO_SHORT)),
        [flag, rest @ ..] if *flag < 2 => Ok((*flag == 1, rest)),
        _ => Err(bad_body(BAD_FLAG)),
    }
}

// The frame, where nothing is left over.
fn expect_end(frame: Frame, rest: &[u8]) -> Result<Frame, BodyError>
    ensures exact { GivesBy fault_in (λ frame. frame) result (frames.at_end frame rest.now) }
    ensures same { IfOk result (λ found. found ≡ frame) }
{
    if !rest.is_empty() {
        return Err(bad_body(LEFT_OVER));
    }
    Ok(frame)
}

// The body of a tick.
#[tactic(auto, unfolding(crate::specs::FrameReading::tick_body))]
fn read_tick(body: &[u8]) -> Result<Frame, BodyError>
    ensures exact { GivesBy fault_in (λ frame. frame) result (frames.tick_body body.now) }
    ensures sound { IfOk result IsFaultless }
{
    let (at, rest) = read_time(body)?;
    if !rest.is_empty() {
        return Err(bad_body(LEFT_OVER));
    }
    Ok(Frame::Log(LogFrame::Tick { at }))
}

// The atom of a payload.
fn atom_of(alloc: Global, payload: &[u8]) -> Result<Atom, BodyError>
    ensures exact { GivesBy fault_in (λ atom. atom) result
        (frames.of_payload (atom_at payload.now)) }
    ensures sound { IfOk result HasNoFault }
{
    match parse_atom(alloc, payload) {
        Ok(atom) => Ok(atom),
        Err(AtomFault::Bad(reason)) => Err(bad_atom(reason)),
        Err(AtomFault::Memory) => Err(BodyError::Memory),
    }
}

// The body of an atom: its payload is the rest.
#[tactic(auto, unfolding(crate::specs::FrameReading::atom_body))]
fn read_atom(alloc: Global, body: &[u8]) -> Result<Frame, BodyError>
    ensures exact { GivesBy fault_in (λ frame. frame) result (frames.atom_body body.now) }
    ensures sound { IfOk result IsFaultless }
{
    let (at, rest) = read_time(body)?;
    let atom = atom_of(alloc, rest)?;
    Ok(Frame::Log(LogFrame::AtomAt { at, atom }))
}

// Whether a payload that isn't too long begins with the id of another atom.
#[tactic(auto, unfolding(atom_record::specs::AtomReading::id_at))]
fn has_other_id(id: u32, payload: &[u8]) -> bool
    ensures { result ≡ frames.is_of_other id payload.now }
{
    match split_u32(payload) {
        Some((own, _)) if payload.len() <= MAX_BYTES => is_atom_id(own) && own != id,
        _ => false,
    }
}

// The atom of a payload in a pull of this id.
fn pulled_atom_of(alloc: Global, id: u32, payload: &[u8]) -> Result<Atom, BodyError>
    ensures exact { GivesBy fault_in (λ atom. atom) result
        (frames.of_payload (frames.pulled_atom id payload.now)) }
    ensures sound { IfOk result (IsPulledAtom id) }
{
    if has_other_id(id, payload) {
        return Err(bad_atom(OTHER_ID));
    }
    atom_of(alloc, payload)
}

// A payload, after its length.
#[tactic(auto, unfolding(crate::specs::FrameReading::payload_at))]
fn read_payload(bytes: &[u8]) -> Result<(&[u8], &[u8]), BodyError>
    ensures { GivesBy fault_in (λ x. (x.0.now, x.1.now)) result (frames.payload_at bytes.now) }
{
    split_counted(bytes).ok_or(bad_body(TOO_SHORT))
}

// The next atom of a pull of this id.
#[tactic(auto, unfolding(crate::specs::FrameReading::pulled_at))]
fn read_pulled(alloc: Global, id: u32, bytes: &[u8]) -> Result<(Atom, &[u8]), BodyError>
    ensures exact { GivesBy fault_in (λ x. (x.0, x.1.now)) result (frames.pulled_at id bytes.now) }
    ensures sound { IfOk result (λ x. IsPulledAtom id x.0) }
{
    let (payload, rest) = read_payload(bytes)?;
    let atom = pulled_atom_of(alloc, id, payload)?;
    Ok((atom, rest))
}

// So many atoms of a pull of this id.
fn read_atoms(
    alloc: Global,
    id: u32,
    count: u16,
    bytes: &[u8],
) -> Result<(Seq<Atom>, &[u8]), BodyError>
    ensures exact { GivesBy fault_in (λ x. (x.0, x.1.now)) result
        (many (frames.pulled_at id) count bytes.now) }
    ensures sound { IfOk result (λ x. (length x.0 ≡ count) × All (IsPulledAtom id) x.0) }
{
    let mut atoms = Seq::new(alloc);
    let mut rest = bytes;
    for _turn in 0..count {
        let (atom, after) = read_pulled(alloc, id, rest)?;
        atoms.push(atom)?;
        rest = after;
    }
    Ok((atoms, rest))
}

// The atoms of a pull of this id, after their count.
#[tactic(auto, unfolding(crate::specs::FrameReading::snapshot_at))]
fn read_snapshot(alloc: Global, id: u32, bytes: &[u8]) -> Result<(Seq<Atom>, &[u8]), BodyError>
    ensures exact { GivesBy fault_in (λ x. (x.0, x.1.now)) result
        (frames.snapshot_at id bytes.now) }
    ensures sound { IfOk result (λ x. IsOutcome id (PullOutcome.Atoms x.0)) }
{
    let (count, rest) = read_u16(bytes)?;
    if count > MAX_ATOMS {
        return Err(bad_body(TOO_MANY_ATOMS));
    }
    read_atoms(alloc, id, count, rest)
}

// What a pull of this id gave, where the flag says whether it failed.
#[tactic(auto, unfolding(crate::specs::FrameReading::outcome_at))]
fn read_outcome(
    alloc: Global,
    id: u32,
    failed: bool,
    bytes: &[u8],
) -> Result<(PullOutcome, &[u8]), BodyError>
    ensures exact { GivesBy fault_in (λ x. (x.0, x.1.now)) result
        (frames.outcome_at id failed bytes.now) }
    ensures sound { IfOk result (λ x. IsOutcome id x.0) }
{
    if failed {
        return Ok((PullOutcome::Failed, bytes));
    }
    let (atoms, rest) = read_snapshot(alloc, id, bytes)?;
    Ok((PullOutcome::Atoms(atoms), rest))
}

// The id of a pull.
#[tactic(auto, unfolding(crate::specs::FrameReading::pull_id_at))]
fn read_pull_id(bytes: &[u8]) -> Result<(u32, &[u8]), BodyError>
    ensures exact { GivesBy fault_in (λ x. (x.0, x.1.now)) result (frames.pull_id_at bytes.now) }
    ensures sound { IfOk result (λ x. IsAtomId x.0) }
{
    let (id, rest) = read_u32(bytes)?;
    if !is_atom_id(id) {
        return Err(bad_atom(BAD_ID));
    }
    Ok((id, rest))
}

// The body of a recorded pull.
#[tactic(auto, unfolding(crate::specs::FrameReading::pull_body))]
fn read_pull(alloc: Global, body: &[u8]) -> Result<Frame, BodyError>
    ensures exact { GivesBy fault_in (λ frame. frame) result (frames.pull_body body.now) }
    ensures sound { IfOk result IsFaultless }
{
    let (at, rest) = read_time(body)?;
    let (id, rest) = read_pull_id(rest)?;
    let (failed, rest) = read_flag(rest)?;
    let (outcome, rest) = read_outcome(alloc, id, failed, rest)?;
    expect_end(Frame::Log(LogFrame::Pull { at, id, outcome }), rest)
}

// The body of an install: the configuration is the rest.
#[tactic(auto, unfolding(crate::specs::FrameReading::install_body))]
fn read_install(alloc: Global, body: &[u8]) -> Result<Frame, BodyError>
    ensures exact { GivesBy fault_in (λ frame. frame) result (frames.install_body body.now) }
    ensures sound { IfOk result IsFaultless }
{
    let (uid, rest) = read_u32(body)?;
    let (id, rest) = read_u64(rest)?;
    let config = Seq::from_slice(alloc, rest)?;
    Ok(Frame::Install {
        uid: uid.cast_signed(),
        id: id.cast_signed(),
        config,
    })
}

// The body of a remove.
#[tactic(auto, unfolding(crate::specs::FrameReading::remove_body))]
fn read_remove(body: &[u8]) -> Result<Frame, BodyError>
    ensures exact { GivesBy fault_in (λ frame. frame) result (frames.remove_body body.now) }
    ensures sound { IfOk result IsFaultless }
{
    let (uid, rest) = read_u32(body)?;
    let (id, rest) = read_u64(rest)?;
    let frame = Frame::Remove {
        uid: uid.cast_signed(),
        id: id.cast_signed(),
    };
    expect_end(frame, rest)
}

// The body of a request for a report.
#[tactic(auto, unfolding(crate::specs::FrameReading::report_body))]
fn read_report(body: &[u8]) -> Result<Frame, BodyError>
    ensures exact { GivesBy fault_in (λ frame. frame) result (frames.report_body body.now) }
    ensures sound { IfOk result IsFaultless }
{
    let (uid, rest) = read_u32(body)?;
    let (id, rest) = read_u64(rest)?;
    let (include_current, rest) = read_flag(rest)?;
    let frame = Frame::Report {
        uid: uid.cast_signed(),
        id: id.cast_signed(),
        include_current,
    };
    expect_end(frame, rest)
}

// The frame of a kind that has this body.
fn read_body(alloc: Global, kind: u8, body: &[u8]) -> Result<Frame, BodyError>
    ensures exact { GivesBy fault_in (λ frame. frame) result (frames.frame_of_kind kind body.now) }
    ensures sound { IfOk result IsFaultless }
{
    match kind {
        TICK => read_tick(body),
        ATOM => read_atom(alloc, body),
        PULL => read_pull(alloc, body),
        INSTALL => read_install(alloc, body),
        REMOVE => read_remove(body),
        REPORT => read_report(body),
        _ => Err(BodyError::Fault(FrameFault::UnknownKind(kind))),
    }
}

/// The time of a frame of the log, in nanoseconds.
pub fn time_of(frame: &LogFrame) -> u64
    ensures { result ≡ frames.log_time frame.now }
{
    match frame {
        LogFrame::Tick { at } | LogFrame::AtomAt { at, .. } | LogFrame::Pull { at, .. } => *at,
    }
}

// Whether a frame is a command, or comes no earlier than the clock stands.
fn check_time(clock: u64, frame: &Frame) -> Result<(), BodyError>
    ensures exact { GivesBy fault_in (λ _. frame.now) result (frames.in_time clock frame.now) }
    ensures sound { OnOk result (IsInTime clock frame.now) }
{
    match frame {
        Frame::Log(log) => {
            let at = time_of(log);
            if at < clock {
                return Err(BodyError::Fault(FrameFault::TimeBackwards(clock, at)));
            }
            Ok(())
        }
        _ => Ok(()),
    }
}

/// The frame that is this kind byte and body, where the clock stands at a time.
pub fn read_frame(alloc: Global, clock: u64, content: &[u8]) -> Result<Frame, BodyError>
    ensures exact { GivesBy fault_in (λ frame. frame) result (frames.frame_of clock content.now) }
    ensures sound { IfOk result (λ f. IsFaultless f × IsInTime clock f) }
{
    let [kind, body @ ..] = content else {
        return Err(BodyError::Fault(FrameFault::BadLength));
    };
    let frame = read_body(alloc, *kind, body)?;
    check_time(clock, &frame)?;
    Ok(frame)
}

/// The clock after a frame, where it stood at a time before it.
pub fn next_clock(clock: u64, frame: &Frame) -> u64
    ensures { result ≡ clock_after clock frame.now }
{
    match frame {
        Frame::Log(log) => time_of(log),
        _ => clock,
    }
}
