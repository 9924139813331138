//! Objects over memory, and adapters of std's streams: what each call gives, and what each failure leaves.
mod memory;
mod readers;
mod texts;
mod writers;
