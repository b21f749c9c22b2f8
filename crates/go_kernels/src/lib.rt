//! Levels, ranks and hops of any graph, fast.
//!
//! Contracts see a graph by `trait Graph` of go_model, and the answers by its definitions: `AreLevels`, `AreCounts`, `IsRank` and `IsHop`. There is
//! one answer to each question, so each call gives what the plain program gives.
//! A caller may rely on this besides: the graph shows the same afterwards, may be read on, and has become what it is by its own calls
//! alone (`Keeps`), also where memory ran out.
//! `levels` goes front by front and reads each vertex that it reaches once; each front is sorted first, so that a store is read in
//! the order of its vertices. `rank` reads each vertex once and keeps the first ones in order; `hop` sorts what came.
//! `level_counts` tells of a search how many vertices are at each level.
//! `Work` is the memory of a search, which a caller keeps for the next one.
//! Left out: what `out` has after want of memory, of which no clause speaks.
#![tactic(auto)]

mod counting;
mod distinct;
mod ranking;
mod search;
mod work;

pub use counting::level_counts;
pub use distinct::hop;
pub use ranking::rank;
pub use search::levels;
pub use work::Work;

#[cfg(test)]
mod tests;
