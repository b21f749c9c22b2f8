// A log file that was read whole.
ghost use Rattle.std.specs.Prelude.{◌≡◌};

use go_word::Edge;
use std::marker::Model;

/// Where a block of a file stands.
#[derive(Clone, Copy, Debug, PartialEq, Eq)]
pub struct BlockPlace {
    /// The offset of the block's gate in bytes.
    pub gate: u64,
    /// The number of its entries.
    pub count: u32,
}

/// A log file that was read whole.
#[derive(Debug, Drop)]
pub struct LogFile {
    vertices: u32,
    edges: Vec<Edge>,
    blocks: Vec<BlockPlace>,
    gate: u64,
}

impl Model for LogFile {
    ghost use Rattle.go_blocks.specs.Log.{Log};

    ghost Value = { Log };

    ghost view = { λ f. record { vertices = f.vertices; edges = f.edges.items; blocks = f.blocks.items; gate = f.gate } };
}

impl LogFile {
    // The file of these parts.
    pub(crate) fn new(
        vertices: u32,
        edges: Vec<Edge>,
        blocks: Vec<BlockPlace>,
        gate: u64,
    ) -> LogFile
        ensures vertices { result.vertices ≡ vertices }
        ensures edges { result.edges ≡ edges.items }
        ensures blocks { result.blocks ≡ blocks.items }
        ensures gate { result.gate ≡ gate }
    {
        LogFile {
            vertices,
            edges,
            blocks,
            gate,
        }
    }

    /// The number of vertices: each entry's are below it.
    pub fn vertices(&self) -> u32
        ensures { result ≡ self.now.vertices }
    {
        self.vertices
    }

    /// The entries of all blocks, the oldest first.
    pub fn edges(&self) -> &[Edge]
        ensures { result.now ≡ self.now.edges }
    {
        &self.edges
    }

    /// The places of the blocks, in order.
    pub fn blocks(&self) -> &[BlockPlace]
        ensures { result.now ≡ self.now.blocks }
    {
        &self.blocks
    }

    /// The offset of the closed gate, behind the last block.
    pub fn gate(&self) -> u64
        ensures { result ≡ self.now.gate }
    {
        self.gate
    }

    /// The entries and the places of the blocks, to be kept.
    pub fn into_parts(self) -> (Vec<Edge>, Vec<BlockPlace>)
        ensures edges { result.0.items ≡ self.edges }
        ensures blocks { result.1.items ≡ self.blocks }
    {
        (self.edges, self.blocks)
    }
}
