// The lists in replies.
ghost use Rattle.std.specs.Prelude.{◌≡◌, IfOk};

use go_word::{Edge, Ranked};
use std::alloc::{AllocError, Global};
use std::marker::Model;

/// A list of vertices or of counts, which contracts see as a list of numbers.
#[derive(Debug, Drop)]
pub struct Ids {
    vertices: Vec<u32>,
}

impl Model for Ids {
    ghost use Rattle.std.specs.Prelude.{ℕ, List};

    ghost Value = { List ℕ };

    ghost view = { λ ids. ids.vertices.items };
}

impl Ids {
    /// A copy of a slice.
    pub fn of(alloc: Global, vertices: &[u32]) -> Result<Ids, AllocError>
        ensures { IfOk result (λ ids. ids ≡ vertices.now) }
    {
        let vertices = Vec::from_slice(alloc, vertices)?;
        Ok(Ids { vertices })
    }

    /// The vertices of a vector, taken over without a copy.
    pub fn from_vec(vertices: Vec<u32>) -> Ids
        ensures { result ≡ vertices.items }
    {
        Ids { vertices }
    }

    /// The vertices, in order.
    pub fn as_slice(&self) -> &[u32]
        ensures { result.now ≡ self.now }
    {
        self.vertices.as_slice()
    }
}

/// A list of vertices with their degrees, which contracts see as a list.
#[derive(Debug, Drop)]
pub struct RankList {
    ranked: Vec<Ranked>,
}

impl Model for RankList {
    ghost use Rattle.std.specs.Prelude.{List};
    ghost use Rattle.go_word.specs.declared.ranked.Ranked.{Ranked};

    ghost Value = { List Ranked };

    ghost view = { λ list. list.ranked.items };
}

impl RankList {
    /// A copy of a slice.
    pub fn of(alloc: Global, ranked: &[Ranked]) -> Result<RankList, AllocError>
        ensures { IfOk result (λ list. list ≡ ranked.now) }
    {
        let ranked = Vec::from_slice(alloc, ranked)?;
        Ok(RankList { ranked })
    }

    /// What a vector has, taken over without a copy.
    pub fn from_vec(ranked: Vec<Ranked>) -> RankList
        ensures { result ≡ ranked.items }
    {
        RankList { ranked }
    }

    /// The vertices with their degrees, in order.
    pub fn as_slice(&self) -> &[Ranked]
        ensures { result.now ≡ self.now }
    {
        self.ranked.as_slice()
    }
}

/// A list of entries of the log, which contracts see as a list.
#[derive(Debug, Drop)]
pub struct EdgeList {
    edges: Vec<Edge>,
}

impl Model for EdgeList {
    ghost use Rattle.std.specs.Prelude.{List};
    ghost use Rattle.go_word.specs.declared.edge.Edge.{Edge};

    ghost Value = { List Edge };

    ghost view = { λ list. list.edges.items };
}

impl EdgeList {
    /// A copy of a slice.
    pub fn of(alloc: Global, edges: &[Edge]) -> Result<EdgeList, AllocError>
        ensures { IfOk result (λ list. list ≡ edges.now) }
    {
        let edges = Vec::from_slice(alloc, edges)?;
        Ok(EdgeList { edges })
    }

    /// The entries of a vector, taken over without a copy.
    pub fn from_vec(edges: Vec<Edge>) -> EdgeList
        ensures { result ≡ edges.items }
    {
        EdgeList { edges }
    }

    /// The entries, in order.
    pub fn as_slice(&self) -> &[Edge]
        ensures { result.now ≡ self.now }
    {
        self.edges.as_slice()
    }
}
