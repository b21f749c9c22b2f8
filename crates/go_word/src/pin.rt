// A pin: a front that a view of the graph holds on to.

/// A front that a view of the graph holds on to, so that what is kept of a shard reaches back to it.
#[derive(Clone, Copy, Debug, PartialEq, Eq)]
pub struct Pin {
    /// The name of the pin; no two of a shard have the same.
    pub id: u64,
    /// The front.
    pub front: u64,
}
