// A list of entries as a graph.
ghost use Rattle.std.specs.Prelude.{◌≡◌, ◌<◌, ◌^◌, All, length};
ghost use Rattle.go_word.specs.Log.{IsWithin};
ghost use Rattle.go_model.specs.Graph.{IsDrawn};

use crate::graph::Graph;
use go_word::{Edge, neighbours_of};
use std::alloc::AllocError;
use std::marker::Model;

/// A list of entries, as a graph of so many vertices. Contracts see what it shows.
#[derive(Drop)]
pub struct Listed<'a> {
    edges: &'a [Edge],
    vertices: u32,
}

impl<'a> Model for Listed<'a> {
    ghost use Rattle.go_model.specs.Graph.{Shown, IsDrawn};

    ghost Value = { Shown };

    ghost view = { λ g. record { log = g.edges.now; size = g.vertices } };

    ghost invariant = { λ g. IsDrawn g.edges.now g.vertices };
}

impl Listed<'_> {
    /// A list of entries as a graph.
    pub fn new(edges: &[Edge], vertices: u32) -> Listed<'_>
        requires ids { All (IsWithin vertices) edges.now }
        requires short { length edges.now < 2 ^ 32 }
        ensures { result ≡ record { log = edges.now; size = vertices } }
    {
        Listed { edges, vertices }
    }
}

impl Graph for Listed<'_> {
    ghost use Rattle.std.proofs.Common.{refl, ◌∙◌};

    ghost shows = { λ graph. graph };

    ghost ready = { λ graph. IsDrawn graph.log graph.size };

    ghost became = { λ old new. new ≡ old };

    ghost same = { λ graph. refl };

    ghost onwards = { λ one two three first later. later ∙ first };

    fn vertices(&self) -> u32 {
        self.vertices
    }

    fn neighbours(&mut self, v: u32, out: &mut Vec<u32>) -> Result<(), AllocError> {
        neighbours_of(self.edges, v, out)
    }
}
