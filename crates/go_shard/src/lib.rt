//! A shard: the older entries of every so many-th vertex, as lists, with what they were at earlier fronts.
//!
//! Contracts see a `Shard` as the record `ShardState`: which shard of how many it is, over how many vertices,
//! the front up to which it knows the log, its cut, the fronts that it keeps, its pins, and a lane for each of its
//! vertices. `Stands shard log` says that it tells what that log has: the neighbours of each of its vertices at the
//! cut, its later entries in order, and how many there were at each front that it keeps from the cut on.
//! A caller may rely on this: a new shard stands for the empty log; after an append it stands for the longer
//! log; `degree_at` and `neighbours` answer from the log, at any kept front from the cut on, whatever was appended
//! or compacted since; a compaction goes past no pin. An append or a compaction that is refused leaves the shard as it
//! was. An append groups its batch by vertex and goes from vertex to vertex, or, where the batch is small, from entry
//! to entry; a vertex without entries takes sixteen bytes.
//! Over all shards of a log, `split` deals a batch out, and `catch_up` gives each shard what it lacks (`HaveParts`).
//! Left out: who owns which pin, and when a compaction is due.
#![tactic(auto)]

mod batch;
mod by_groups;
mod by_vertex;
mod catching_up;
mod compacting;
mod compacting_all;
mod counting;
mod fronts;
mod groups;
mod held;
mod listing;
mod making;
mod pins;
mod reading;
mod renewal;
mod slot;
mod splitting;
mod store;
mod striping;
mod words;

pub use by_vertex::ByVertex;
pub use catching_up::catch_up;
pub use compacting_all::compact_all;
pub use fronts::FrontRange;
pub use making::empty_shards;
pub use reading::{list_neighbours, list_pinned};
pub use splitting::split;
pub use store::Shard;

#[cfg(test)]
mod compaction_tests;
#[cfg(test)]
mod counting_tests;
#[cfg(test)]
mod fixture;
#[cfg(test)]
mod tests;
