// A vertex with its degree.

/// A vertex of a graph, with the number of edges that leave it.
#[derive(Clone, Copy, Debug, PartialEq, Eq)]
pub struct Ranked {
    /// The vertex.
    pub vertex: u32,
    /// How many edges leave it.
    pub degree: u32,
}
