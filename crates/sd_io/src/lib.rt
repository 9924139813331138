//! Where bytes come from and go to: two traits, objects over memory, and adapters of std's streams.
#![tactic(auto)]

mod buffered_source;
mod front;
mod mem_sink;
mod mem_source;
mod sink;
mod source;
mod std_sink;
mod std_source;

pub use buffered_source::BufferedSource;
pub use front::{FrontError, read_at_most};
pub use mem_sink::MemSink;
pub use mem_source::MemSource;
pub use sink::{Sink, WriteFailed};
pub use source::{ReadFailed, Source};
pub use std_sink::StdSink;
pub use std_source::StdSource;
