//! The calls of a ring that threads share: its opening, claims, fills, takes, copies, fronts, the flag, and its end.
//!
//! Contracts see a ring by its table and its key, and a seat as its view, both of `go_rule`; what a call does is said by
//! the steps that it makes (`specs/`). No call waits, and none but `open` takes memory.
//! Left out: progress, fairness, time, and in which order the calls of two threads come.
#![tactic(auto)]

mod ahead;
mod calls;
mod claim;
mod copied;
mod copies;
mod cursor;
mod opening;
mod ordered;
mod ring;
mod room;
mod stores;
mod takes;

pub use calls::RingCalls;
pub use claim::{Claim, Fill};
pub use copied::{Copied, CopyStop};
pub use opening::open;
pub use room::Room;

#[cfg(test)]
mod tests;
#[cfg(test)]
mod thread_tests;
#[cfg(test)]
mod worker_tests;
