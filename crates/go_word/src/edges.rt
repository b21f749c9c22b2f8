// A list of entries that is owned.
ghost use Rattle.std.specs.Prelude.{◌≡◌, IfOk};

use crate::edge::Edge;
use std::alloc::{AllocError, Global};
use std::marker::Model;

/// A list of entries that is owned, as those of a file that a session loads. Contracts see the list.
#[derive(Debug, Drop)]
pub struct Edges {
    entries: Vec<Edge>,
}

impl Model for Edges {
    ghost use Rattle.std.specs.Prelude.{List};
    ghost use Rattle.go_word.specs.declared.edge.Edge.{Edge};

    ghost Value = { List Edge };

    ghost view = { λ e. e.entries.items };
}

impl Edges {
    /// A copy of a list.
    pub fn of(alloc: Global, edges: &[Edge]) -> Result<Edges, AllocError>
        ensures { IfOk result (λ e. e ≡ edges.now) }
    {
        let entries = Vec::from_slice(alloc, edges)?;
        Ok(Edges { entries })
    }

    /// Takes over a list.
    pub fn from_vec(entries: Vec<Edge>) -> Edges
        ensures { result ≡ entries.items }
    {
        Edges { entries }
    }

    /// Gives the list back.
    pub fn into_vec(self) -> Vec<Edge>
        ensures { result.items ≡ self }
    {
        self.entries
    }

    /// The entries.
    pub fn as_slice(&self) -> &[Edge]
        ensures { result.now ≡ self.now }
    {
        self.entries.as_slice()
    }
}
