// How a ring is laid out, and what its rule reads of how it was made.
use go_word::Edge;
use std::snapshot::Snapshot;

/// The sizes of a ring.
#[derive(Clone, Copy, Debug, PartialEq, Eq)]
pub struct Layout {
    /// How many vertices there are.
    pub vertices: u32,
    /// How many slots the ring has.
    pub ring: u64,
    /// How many shards there are.
    pub shards: u32,
}

/// What is told the rule once, as the ring is made.
#[derive(Drop)]
pub struct Key<T> {
    /// The sizes.
    pub layout: Layout,
    /// The first position that the ring serves.
    pub first: u64,
    /// How many entries may be claimed in all.
    pub quota: u64,
    /// The entries before the first position.
    pub opened: Snapshot<Vec<Edge>>,
    /// The file as it was put in at first.
    pub file: Snapshot<T>,
}
