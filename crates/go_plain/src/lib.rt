//! A store of some sessions by turns over a disk: the newest entries in a ring, older ones in shards, all of them in a log file.
//!
//! Contracts see a `PlainStore` as the record `PlainState` of specs/Plain.antt: the disk and the number of entries as they were
//! opened, the log, which session put each entry, how much of it was moved out of the ring, the log file, and what is kept for each
//! session. `standing_of` is what the handle of a session stands for: `PlainSession` is a `Store` of go_api.
//! A caller may rely on this: a put answers the next position; a view shows the whole log, and what is read in it is the value over
//! so many first entries, whatever was moved or compacted since; a call of one session leaves what is kept for the others
//! (`GoesOnBy`); `finish` leaves all on the disk, or a stop with its cause (`HasEnded`); a crash at any moment since the store was
//! made leaves a part of the log with all that was there at opening.
//! Entries are moved out of the ring where it is full, where a session syncs or compacts, and at the end: all of them, to the file
//! in blocks of at most 65,536 and then to the shards, which keep the front of each view.
//! A front that is asked again and again has the neighbours of all vertices side by side (src/front_rows.rt), of which no answer tells.
//! Left out: which session puts when.
//! docs/ARCHITECTURE.md follows an edge through it.
#![tactic(auto)]

mod body;
mod front_rows;
mod listing;
mod looking;
mod making;
mod putting;
mod reading;
mod ring;
mod scratch;
mod seat;
mod session;
mod skip;
mod store;
mod views;

pub use making::Unmade;
pub use seat::Seat;
pub use session::PlainSession;
pub use store::PlainStore;

#[cfg(test)]
mod calls_tests;
#[cfg(test)]
mod fixture;
#[cfg(test)]
mod rows_tests;
#[cfg(test)]
mod tests;
