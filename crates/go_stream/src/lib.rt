//! Streams over a ring among threads: what has come of the log, without a gap or a repeat.
//!
//! A `LiveStream` is a position in the log, its cursor. `update` gives the entries from there on and moves the cursor behind
//! them: those that are still in the ring by a copy of it, and those that left it from the log's file, whose turn it takes.
//! Contracts see a ring and a seat as those of `go_ring` and `go_turns`. `specs/Spans.antt` has which entries come,
//! `specs/Updates.antt` what each answer says of the seat.
//! A caller may rely on the tiling: one update begins where the last one ended, and one that was stopped gave nothing.
//! Left out: progress, fairness, time, and what a disk has that doesn't tell its content.
#![tactic(auto)]

mod copying;
mod filing;
mod flagged;
mod live_stream;
mod wanted;
mod words;

pub use live_stream::LiveStream;

#[cfg(test)]
mod fixture;
#[cfg(test)]
mod memory_tests;
#[cfg(test)]
mod tests;
#[cfg(test)]
mod thread_tests;
