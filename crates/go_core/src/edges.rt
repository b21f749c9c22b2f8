// A short list of edges, as a claim carries it.
ghost use Rattle.std.specs.Prelude.{◌≡◌, IfOk};

use go_word::Edge;
use std::alloc::{AllocError, Global};
use std::marker::Model;

/// A list of edges that owns its memory.
#[derive(Debug, Drop)]
pub struct EdgeSeq {
    edges: Vec<Edge>,
}

impl Model for EdgeSeq {
    ghost use Rattle.std.specs.Prelude.{List};
    ghost use Rattle.go_word.specs.declared.edge.Edge.{Edge};

    ghost Value = { List Edge };

    ghost view = { λ s. s.edges.items };
}

impl EdgeSeq {
    /// Copies a list of edges.
    pub fn of(alloc: Global, edges: &[Edge]) -> Result<EdgeSeq, AllocError>
        ensures { IfOk result (λ s. s ≡ edges.now) }
    {
        let edges = edges.to_vec(alloc)?;
        Ok(EdgeSeq { edges })
    }

    /// The edges, in their order.
    pub fn as_slice(&self) -> &[Edge]
        ensures { result.now ≡ self.now }
    {
        &self.edges
    }
}
