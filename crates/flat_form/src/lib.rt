//! The flat form: values as items, and items as bytes, with exactly one way back.
#![tactic(auto)]

mod decode;
mod encode;
mod fits;
mod flat;
mod flat_error;
mod item;
mod measure;
mod range;
mod saved;
mod spelled;

pub use decode::decode_items;
pub use encode::encode_items;
pub use fits::can_be_spelled;
pub use flat::{Flat, build_bytes};
pub use flat_error::FlatError;
pub use item::{Item, Items};
pub use measure::spelled_len;
pub use range::fit_items;
pub use saved::{rebuild, save};
