//! A log of edges on a disk that survives a crash at any moment.
//!
//! Contracts see a `DurableLog` as the record `LogState`: its disk, its number of vertices, how many entries it has, and
//! where its closed gate and its blocks stand. `IsLog device log entries` says that it stands for these, with nothing pending.
//! A caller may rely on this: an attached log stands for the entries of its file; an append that returned has added its
//! block, whatever crashes then; and at each moment of a call a crash leaves a file that recovers to the log before it, or
//! to the log with the whole block. Each refusal has its cause, and hands back what was lent; none is made up by asking
//! the disk for what isn't there. A `Journal` is a log until its disk fails: it appends any number of entries in full
//! blocks, and `Keeps` says what it has of a longer log, and what a crash at each moment since opening left of it.
//! `LeavesOnly` and `SettlesTo` speak of the images of all moments between two states of a disk; `proofs/Moments.antt`
//! exports how they go on from call to call. A disk that tells nothing has no image, so that nothing is claimed of a real
//! file but what was read from it. docs/CRASH.md goes through an append call by call.
//! Left out: a log that goes on after its disk failed.
#![tactic(auto)]

mod append;
mod contents;
mod durable_log;
mod fault;
mod finding;
mod finished;
mod gate;
mod journal;
mod laws;
mod limits;
mod making;
mod opening;
mod range;
mod ranged;
mod run;
mod through;
mod whole;

pub use durable_log::{DurableLog, Opened};
pub use fault::{LogFault, OpenFault};
pub use finished::Finished;
pub use journal::{Flushed, Journal};
pub use laws::{log_laws, recovery_laws};
pub use limits::FILE_LIMIT;
pub use opening::attach;
pub use ranged::Ranged;

#[cfg(test)]
mod caller;
#[cfg(test)]
mod file_tests;
#[cfg(test)]
mod fixture;
#[cfg(test)]
mod journal_tests;
#[cfg(test)]
mod range_tests;
#[cfg(test)]
mod tests;
