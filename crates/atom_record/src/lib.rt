//! Atoms, their values, and the keys that metrics make of them.
#![tactic(auto)]

mod atom;
mod decode;
mod encode;
mod fault;
mod key;
mod log;
mod parse;
mod value;

pub use atom::{Atom, AtomField, EXCLUSIVE, PRIMARY, RESET, has_flag, is_atom_id};
pub use decode::decode_value;
pub use encode::{encode_atom, encode_value};
pub use fault::{
    AtomFault, BAD_FLAGS, BAD_ID, BAD_PLACE, BAD_TYPE, CUT, NOT_ABOVE, OTHER_ID, TOO_LONG,
};
pub use key::{DimKey, Leaves};
pub use log::{LogFrame, PullOutcome, is_pulled};
pub use parse::{MAX_BYTES, parse_atom, parse_atom_into};
pub use value::{Bytes, Leaf, MetricKey, Slice, Value};
