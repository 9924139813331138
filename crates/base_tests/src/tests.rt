//! Sessions read to their end or to their fault, and replies as bytes; atoms, streams, the flat form, clocks and tables
//! below them. All bytes and texts were worked by hand.
mod announced;
mod asserts;
mod atoms;
mod faults;
mod flat;
mod held;
mod large;
mod reading;
mod replies;
mod sessions;
mod streams;
