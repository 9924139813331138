//! Which entries of an atom a set of fields means: leaf values, keys, filtered atoms.
#![tactic(auto)]

mod ends;
mod error;
mod form;
mod key;
mod leaf;
mod picked;
mod value;

pub use error::SelectError;
pub use form::field_set;
pub use key::{key_into, key_of};
pub use leaf::{FieldSet, LeafPath};
pub use picked::filter;
pub use value::leaf_value;
