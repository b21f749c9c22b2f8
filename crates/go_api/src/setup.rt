// How large a store is.

/// How large a store is.
#[derive(Clone, Copy, Debug, PartialEq, Eq)]
pub struct Setup {
    /// The vertices are below this.
    pub vertices: u32,
    /// How many slots the ring has.
    pub ring: u64,
    /// How many shards the vertices are divided among.
    pub shards: u32,
}
