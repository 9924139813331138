//! The wire format of protocol buffers: a reader of records and a writer of fields.
#![tactic(auto)]

mod fault;
mod field;
mod group;
mod records;
mod tag;
mod varint;
mod writer;

pub use fault::{
    CUT, LONG_TAG, LONG_VARINT, STRAY_GROUP_END, TOO_DEEP, UNKNOWN_WIRE_TYPE, WireFault,
    ZERO_NUMBER,
};
pub use field::{Body, Field};
pub use records::Records;
pub use varint::varint_of;
pub use writer::Writer;
