//! What moves the entries of a ring on: an archiver that gives them to the shards, a flusher that appends them to the log's
//! file, and a compaction of the shards.
//!
//! Contracts see a ring by its table and its key, and a seat as its view and the slots in its hand, all of go_rule; a part is a
//! `Piece` of go_piece. What a turn of a worker leaves its seat is `HasGoneOn` of go_turns and what the turn is for
//! (`specs/Turns.antt`). What it makes of a part is said by a function that is lent that part (`specs/Bringing.antt`).
//! Left out: progress, fairness, time, and when a turn is due.
#![tactic(auto)]

mod appending;
mod archiving;
mod bringing;
mod compacting;
mod compaction;
mod counting;
mod flushing;
mod own_fronts;
mod splitting;
mod tried;
mod turn;

pub use appending::append_to;
pub use archiving::archive_turn;
pub use bringing::bring_on;
pub use compacting::compact_shard;
pub use compaction::compact_all;
pub use flushing::flush_turn;
pub use splitting::split;
pub use turn::Turn;

#[cfg(test)]
mod fixture;
#[cfg(test)]
mod memory_tests;
#[cfg(test)]
mod tests;
#[cfg(test)]
mod thread_tests;
