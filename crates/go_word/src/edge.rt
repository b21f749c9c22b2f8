// One entry of the log, and how many vertices a graph may have.

/// A graph has at most so many vertices.
pub const VERTEX_LIMIT: u32 = 1 << 20;

/// One entry of the log of a graph: that an edge is added, or that one is deleted.
#[derive(Clone, Copy, Debug, PartialEq, Eq)]
pub struct Edge {
    /// Whether the entry deletes an edge; else it adds one.
    pub del: bool,
    /// The vertex that the edge leaves.
    pub src: u32,
    /// The vertex that the edge enters.
    pub dst: u32,
}
