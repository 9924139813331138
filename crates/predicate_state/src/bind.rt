//! What a question asks of a key's leaves.

use atom_record::Leaf;
use sd_base::Seq;

/// Asks that the leaf at a place of the key be this one. `Missing` is a leaf as any other.
#[derive(Drop, PartialEq, Eq)]
pub struct Bind {
    /// The place among the leaves of the predicate's keys, from 0.
    pub place: u32,
    pub value: Leaf,
}

/// The binds of a question. A leaf without a bind may have any value.
pub type BindList = Seq<Bind>;
