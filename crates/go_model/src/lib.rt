//! What is asked of a graph: the answers by definition, and plain programs that give them.
//!
//! Contracts see a graph as the list of its entries and its number of vertices. `specs/Levels.antt` says how far a vertex is from
//! another one, by walks; `specs/Ranks.antt` which vertices have most edges; `specs/Hops.antt` whom a vertex reaches by one edge.
//! A caller may rely on these definitions alone, and on their laws, which are the clauses of `question_laws`: there is one answer to
//! each question.
//! `Graph` is a graph that is read vertex by vertex, as a view of a store is; `Listed` makes a list of entries one.
//! The programs here are plain, and slow on large graphs: go_kernels has faster ones by the same definitions, over any `Graph`.
//! Left out: what `out` has after want of memory, of which no clause speaks.
#![tactic(auto)]

mod graph;
mod hops;
mod laws;
mod levels;
mod listed;
mod ranks;

pub use graph::Graph;
pub use hops::{hop_of, keep_once};
pub use laws::question_laws;
pub use levels::{clear_levels, levels_of};
pub use listed::Listed;
pub use ranks::rank_of;

#[cfg(test)]
mod tests;
