//! From the bytes of a payload to an atom.
ghost use Rattle.std.specs.Prelude.{◌≡◌, [], Ok, IfOk, OnOk};
ghost use Rattle.std.specs.Int.{w32, w64};
ghost use Rattle.std.specs.List.{list_any};
ghost use Rattle.sd_base.specs.Reads.{GivesBy};
ghost use Rattle.atom_record.specs.Flags.{is_exclusive};
ghost use Rattle.atom_record.specs.AtomSpelling.{payload_of};
ghost use Rattle.atom_record.specs.AtomSound.{HasNoFault};
ghost use Rattle.atom_record.specs.AtomReading.{reason_of, entry_at, entries_at, id_at, atom_at};
ghost use Rattle.atom_record.specs.AtomReading.{number_at, text_at, bool_at, kind_at, value_at};
ghost use Rattle.atom_record.specs.AtomReading.{place_of, is_in_range, is_above, is_after_last, may_be_state, may_have};

use crate::atom::{EXCLUSIVE, PRIMARY, RESET, has_flag, is_atom_id};
use crate::fault::{BAD_FLAGS, BAD_ID, BAD_PLACE, BAD_TYPE, CUT, NOT_ABOVE, TOO_LONG};
use crate::{Atom, AtomFault, AtomField, Bytes, Value};
use sd_base::{Seq, split_counted, split_u32, split_u64};
use std::alloc::Global;
use std::mem;

/// The most bytes of a payload.
pub const MAX_BYTES: usize = 4096;

/// All flags together.
const ALL_FLAGS: u8 = EXCLUSIVE | PRIMARY | RESET;

/// The largest field, index and sub of an entry.
const MAX_PART: u8 = 127;

/// Where an entry stands in its atom: by field, then by index, then by sub.
#[derive(Clone, Copy)]
struct Place {
    field: u8,
    index: u8,
    sub: u8,
}

impl Place {
    // Whether an entry may stand here.
    fn fits_limits(self) -> bool
        ensures { result ≡ is_in_range self }
    {
        1 <= self.field && self.field <= MAX_PART && self.index <= MAX_PART && self.sub <= MAX_PART
    }

    // Whether the place is above another: by field, then by index, then by sub.
    fn stands_above(self, below: Place) -> bool
        ensures { result ≡ is_above self below }
    {
        below.field < self.field
            || below.field == self.field
                && (below.index < self.index || below.index == self.index && below.sub < self.sub)
    }

    // Whether the place is above that of the last entry, if there is one.
    fn is_after_last(self, before: &[AtomField]) -> bool
        ensures { result ≡ is_after_last before.now self }
    {
        match before.last() {
            None => true,
            Some(last) => self.stands_above(last.place()),
        }
    }

    // Whether an entry here with a value of this kind may be an exclusive state.
    fn may_be_state(self, kind: Kind) -> bool
        ensures { result ≡ may_be_state self kind }
    {
        matches!(kind, Kind::Int) && self.index == 0 && self.sub == 0
    }
}

impl AtomField {
    // Where the entry stands in its atom.
    fn place(&self) -> Place
        ensures { result ≡ place_of self.now }
    {
        Place {
            field: self.field,
            index: self.index,
            sub: self.sub,
        }
    }
}

/// The kinds of values, as a payload tells them apart.
#[derive(Clone, Copy)]
pub(crate) enum Kind {
    Int,
    Long,
    Bool,
    Str,
    Raw,
    Bits32,
}

impl Kind {
    // The kind that a type byte names.
    pub(crate) fn of(number: u8) -> Result<Kind, AtomFault>
        ensures { GivesBy reason_of (λ kind. kind) result (kind_at number) }
    {
        match number {
            1 => Ok(Kind::Int),
            2 => Ok(Kind::Long),
            3 => Ok(Kind::Bool),
            4 => Ok(Kind::Str),
            5 => Ok(Kind::Raw),
            6 => Ok(Kind::Bits32),
            _ => Err(AtomFault::Bad(BAD_TYPE)),
        }
    }
}

// Whether an entry may have these flags, with or without an exclusive one before it.
fn may_have(exclusive_before: bool, place: Place, kind: Kind, flags: u8) -> bool
    ensures { result ≡ may_have exclusive_before place kind flags }
{
    if ALL_FLAGS < flags {
        false
    } else if has_flag(flags, EXCLUSIVE) {
        !exclusive_before && place.may_be_state(kind)
    } else {
        !has_flag(flags, RESET)
    }
}

// A number of four bytes.
fn u32_of(bytes: &[u8]) -> Result<(u32, &[u8]), AtomFault>
    ensures { GivesBy reason_of (λ x. (x.0, x.1.now)) result (number_at w32 bytes.now) }
{
    split_u32(bytes).ok_or(AtomFault::Bad(CUT))
}

// A number of eight bytes.
fn u64_of(bytes: &[u8]) -> Result<(u64, &[u8]), AtomFault>
    ensures { GivesBy reason_of (λ x. (x.0, x.1.now)) result (number_at w64 bytes.now) }
{
    split_u64(bytes).ok_or(AtomFault::Bad(CUT))
}

// One byte, which is 0 or 1.
fn bool_of(bytes: &[u8]) -> Result<(bool, &[u8]), AtomFault>
    ensures { GivesBy reason_of (λ x. (x.0, x.1.now)) result (bool_at bytes.now) }
{
    match bytes {
        [] => Err(AtomFault::Bad(CUT)),
        [0, rest @ ..] => Ok((false, rest)),
        [1, rest @ ..] => Ok((true, rest)),
        [_, ..] => Err(AtomFault::Bad(BAD_TYPE)),
    }
}

// A length in two bytes, and so many bytes.
#[tactic(auto, unfolding(crate::specs::AtomReading::text_at))]
fn text_of(alloc: Global, bytes: &[u8]) -> Result<(Bytes, &[u8]), AtomFault>
    ensures { GivesBy reason_of (λ x. (x.0, x.1.now)) result (text_at bytes.now) }
{
    let Some((text, rest)) = split_counted(bytes) else {
        return Err(AtomFault::Bad(CUT));
    };
    Ok((Seq::from_slice(alloc, text)?, rest))
}

// A value of this kind. Each atom of the log is read by it: it is a part of that loop, though others call it, too.
#[inline(always)]
#[tactic(auto, unfolding(crate::specs::AtomReading::value_at))]
pub(crate) fn value_of(alloc: Global, kind: Kind, bytes: &[u8]) -> Result<(Value, &[u8]), AtomFault>
    ensures { GivesBy reason_of (λ x. (x.0, x.1.now)) result (value_at kind bytes.now) }
{
    match kind {
        Kind::Int => {
            let (number, rest) = u32_of(bytes)?;
            Ok((Value::Int(number.cast_signed()), rest))
        }
        Kind::Long => {
            let (number, rest) = u64_of(bytes)?;
            Ok((Value::Long(number.cast_signed()), rest))
        }
        Kind::Bool => {
            let (truth, rest) = bool_of(bytes)?;
            Ok((Value::Bool(truth), rest))
        }
        Kind::Str => {
            let (text, rest) = text_of(alloc, bytes)?;
            Ok((Value::Str(text), rest))
        }
        Kind::Raw => {
            let (text, rest) = text_of(alloc, bytes)?;
            Ok((Value::Raw(text), rest))
        }
        Kind::Bits32 => {
            let (bits, rest) = u32_of(bytes)?;
            Ok((Value::Bits32(bits), rest))
        }
    }
}

// The entry at the front of the bytes, which comes after these entries.
#[tactic(auto, unfolding(crate::specs::AtomReading::entry_at))]
fn entry_of<'a>(
    alloc: Global,
    before: &[AtomField],
    exclusive_before: bool,
    bytes: &'a [u8],
) -> Result<(AtomField, &'a [u8]), AtomFault>
    requires { exclusive_before ≡ list_any is_exclusive before.now }
    ensures { GivesBy reason_of (λ x. (x.0, x.1.now)) result (entry_at before.now bytes.now) }
{
    let [field, index, sub, flags, kind, rest @ ..] = bytes else {
        return Err(AtomFault::Bad(CUT));
    };
    let place = Place {
        field: *field,
        index: *index,
        sub: *sub,
    };
    if !place.fits_limits() {
        return Err(AtomFault::Bad(BAD_PLACE));
    }
    if !place.is_after_last(before) {
        return Err(AtomFault::Bad(NOT_ABOVE));
    }
    let kind = Kind::of(*kind)?;
    if !may_have(exclusive_before, place, kind, *flags) {
        return Err(AtomFault::Bad(BAD_FLAGS));
    }
    let (value, rest) = value_of(alloc, kind, rest)?;
    let entry = AtomField {
        field: place.field,
        index: place.index,
        sub: place.sub,
        flags: *flags,
        value,
    };
    Ok((entry, rest))
}

// All entries, to the end of the bytes, in the room of others.
#[inline(always)]
fn entries_of(
    alloc: Global,
    room: Vec<AtomField>,
    bytes: &[u8],
) -> Result<Vec<AtomField>, AtomFault>
    ensures { GivesBy reason_of (λ entries. entries.items) result (entries_at [] bytes.now) }
{
    let mut entries = room;
    entries.clear();
    let mut exclusive = false;
    let mut rest = bytes;
    while !rest.is_empty() {
        let (entry, after) = entry_of(alloc, entries.as_slice(), exclusive, rest)?;
        exclusive |= has_flag(entry.flags, EXCLUSIVE);
        entries.push(entry)?;
        rest = after;
    }
    Ok(entries)
}

// The id of an atom, which is the first four bytes of a payload.
#[tactic(auto, unfolding(crate::specs::AtomReading::id_at))]
fn id_of(bytes: &[u8]) -> Result<(u32, &[u8]), AtomFault>
    ensures { GivesBy reason_of (λ x. (x.0, x.1.now)) result (id_at bytes.now) }
{
    let Some((id, rest)) = split_u32(bytes) else {
        return Err(AtomFault::Bad(BAD_ID));
    };
    if !is_atom_id(id) {
        return Err(AtomFault::Bad(BAD_ID));
    }
    Ok((id, rest))
}

/// The atom that a payload spells, or the reason that is met first.
pub fn parse_atom(alloc: Global, bytes: &[u8]) -> Result<Atom, AtomFault>
    ensures exact { GivesBy reason_of (λ atom. atom) result (atom_at bytes.now) }

    // What is read has no fault and is spelled so.
    ensures sound { IfOk result HasNoFault }
    ensures spelled { IfOk result (λ atom. bytes.now ≡ payload_of atom) }

    // What has no fault and is spelled so is read.
    ensures only { (atom : Atom) → HasNoFault atom → bytes.now ≡ payload_of atom
        → GivesBy reason_of (λ atom. atom) result (Ok atom) }
{
    let mut atom = Atom {
        id: 0,
        fields: Seq::new(alloc),
    };
    match parse_atom_into(alloc, &mut atom, bytes) {
        Ok(()) => Ok(atom),
        Err(e) => Err(e),
    }
}

/// The same, in the place and the room of another atom. After an error that one is of no use.
pub fn parse_atom_into(alloc: Global, atom: &mut Atom, bytes: &[u8]) -> Result<(), AtomFault>
    ensures exact { GivesBy reason_of (λ _. atom.new) result (atom_at bytes.now) }
    ensures sound { OnOk result (HasNoFault atom.new) }
    ensures spelled { OnOk result (bytes.now ≡ payload_of atom.new) }
    ensures only { (other : Atom) → HasNoFault other → bytes.now ≡ payload_of other
        → GivesBy reason_of (λ _. atom.new) result (Ok other) }
{
    read_into(alloc, atom, bytes)
}

// Reads what a payload spells into another atom.
#[inline(always)]
#[tactic(auto, unfolding(crate::specs::AtomReading::atom_at))]
fn read_into(alloc: Global, atom: &mut Atom, bytes: &[u8]) -> Result<(), AtomFault>
    ensures { GivesBy reason_of (λ _. atom.new) result (atom_at bytes.now) }
{
    if MAX_BYTES < bytes.len() {
        return Err(AtomFault::Bad(TOO_LONG));
    }
    let (id, rest) = id_of(bytes)?;
    let room = mem::replace(&mut atom.fields, Seq::new(alloc));
    let entries = entries_of(alloc, room.into_vec(), rest)?;
    atom.id = id;
    atom.fields = Seq::from_vec(entries);
    Ok(())
}
