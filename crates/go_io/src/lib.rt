//! The outside of the store, as traits: shelves of named texts and sinks of bytes, in memory and over the real ones.
//!
//! A contract sees a shelf as the map from names to bytes, and a sink as the bytes that it has taken, where they tell:
//! both are optional, and an adapter over the system tells nothing. Beside it each counts its faults.
//! A count never falls, and a call tells a fault only where a count rose in that call (or stands at its end, 2^64 - 1),
//! so code above can hand a fault on and can't make one up.
//! `MemShelf` and `MemSink` tell all they hold, and fail exactly where they were told to: they are for tests.
//! `FolderShelf` and `StdSink` read files of the current folder and write to standard output.
//! Want of memory is an answer of its own, of which no clause says when it comes.
//! `Gate` is where a test holds sessions and workers back; `NoGate` holds nobody, nor does `CountingGate`, which notes who passes.
//! Left out: that a real file or output behaves as the traits say, of which nothing is proved.
#![tactic(auto)]

mod folder_shelf;
mod gate;
mod mem_shelf;
mod mem_sink;
mod shelf;
mod sink;
mod std_sink;

pub use folder_shelf::FolderShelf;
pub use gate::{CountingGate, Gate, NoGate, Worker};
pub use go_text::Failed;
pub use mem_shelf::MemShelf;
pub use mem_sink::MemSink;
pub use shelf::{Fetched, Shelf};
pub use sink::{Sink, put_all};
pub use std_sink::StdSink;

#[cfg(test)]
mod adapter_tests;
#[cfg(test)]
mod tests;
