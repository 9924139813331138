//! What is logged: an id and entries.
ghost use Rattle.std.specs.Prelude.{◌≡◌, ◌↔◌, IfOk, IsTrue};
ghost use Rattle.atom_record.specs.Id.{IsAtomId, is_atom_id};
ghost use Rattle.atom_record.specs.Flags.{has_flag};

use crate::Value;
use sd_base::{Duplicate, Exact, Seq};
use std::alloc::{AllocError, Global};

/// The flag of an entry that holds a state. An atom has one such entry at most.
pub const EXCLUSIVE: u8 = 1;

/// The flag of an entry that belongs to the key of a state.
pub const PRIMARY: u8 = 2;

/// The flag of a state that puts all states of its kind of atom back.
pub const RESET: u8 = 4;

/// One entry of an atom.
#[derive(Debug, Drop, PartialEq, Eq)]
pub struct AtomField {
    /// The field's number, from 1 to 127.
    pub field: u8,
    /// The place in a repeated field from 1, or 0 where the field isn't repeated.
    pub index: u8,
    /// The field inside a message, or 0 outside of one.
    pub sub: u8,
    /// The sum of those of [`EXCLUSIVE`], [`PRIMARY`] and [`RESET`] that the entry has.
    pub flags: u8,
    /// What the entry holds.
    pub value: Value,
}

/// An atom: a numbered record of what happened.
#[derive(Debug, Drop, PartialEq, Eq)]
pub struct Atom {
    /// What kind of thing happened, from 1 to 2^31 - 1.
    pub id: u32,
    /// The entries, in rising order of field, index and sub.
    pub fields: Seq<AtomField>,
}

/// Whether an atom may have this id.
pub fn is_atom_id(id: u32) -> bool
    ensures exact { IsTrue result ↔ IsAtomId id }
    ensures test { result ≡ is_atom_id id }
{
    0 < id && id < 1 << 31
}

/// Whether a flag is among these flags.
pub fn has_flag(flags: u8, flag: u8) -> bool
    ensures { result ≡ has_flag flags flag }
{
    flags & flag != 0
}

impl Atom {
    /// A copy of the atom. It equals its source, and memory is all that it can want.
    pub fn clone_atom(&self, alloc: Global) -> Result<Atom, AllocError>
        ensures { IfOk result (λ copy. copy ≡ self.now) }
    {
        self.duplicate(alloc)
    }
}

impl Exact for AtomField {
    ghost use Rattle.atom_record.specs.Equal.{atom_field_exact};

    ghost exact = { atom_field_exact };
}

impl Exact for Atom {
    ghost use Rattle.atom_record.specs.Equal.{atom_exact};

    ghost exact = { atom_exact };
}

impl Duplicate for AtomField {
    /// A copy of the entry with a text of its own.
    fn duplicate(&self, alloc: Global) -> Result<AtomField, AllocError> {
        let value = self.value.duplicate(alloc)?;
        Ok(AtomField {
            field: self.field,
            index: self.index,
            sub: self.sub,
            flags: self.flags,
            value,
        })
    }
}

impl Duplicate for Atom {
    /// A copy of the atom with entries of its own.
    fn duplicate(&self, alloc: Global) -> Result<Atom, AllocError> {
        let fields = self.fields.duplicate(alloc)?;
        Ok(Atom {
            id: self.id,
            fields,
        })
    }
}
