//! Leaves, and the sets of them that keys are read by.
ghost use Rattle.std.proofs.Common.{rules};

use config_types::Position;
use sd_base::{Exact, Seq};

/// A field of an atom, or of the message at that field.
#[derive(Clone, Copy, Debug, PartialEq, Eq, Hash)]
pub struct LeafPath {
    /// The field's number, from 1 to 127.
    pub field: u8,
    /// Which entries of a repeated field are picked; none for a field that isn't repeated. It is never `Any`.
    pub position: Option<Position>,
    /// The number of the field inside the message, or 0 where there is no message.
    pub sub: u8,
}

/// The kind of atom that a key is read of, and the leaves that it is made of, in their order.
#[derive(Debug, Drop, PartialEq, Eq)]
pub struct FieldSet {
    /// The atom's id, or 0 where no atom is named and there is no leaf.
    pub atom_id: u32,
    /// The leaves, none of which comes twice.
    pub leaves: Seq<LeafPath>,
}

impl Exact for LeafPath {
    ghost exact = { λ x y. Prim.search rules };
}
