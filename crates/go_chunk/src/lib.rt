//! Lists of 64-bit words that grow by chunks, so that no word ever moves.
//!
//! Contracts see a `Chain` as a record of its words in order and of `spare`, the number of words that
//! it takes before it has to ask for memory again; they see a `Chunk` as the list of its words.
//! A caller may rely on this: after `reserve(k)` the next `k` pushes can't fail, each push adds its word
//! at the end and lowers `spare` by one (`extend_from_slice` does so for many words), `truncate` gives up the last words and raises it,
//! and a refused `reserve` or `copy_front` leaves the list as it was.
//! `get`, `slice` and `push` take constant time, and `copy_front` appends whole chunks.
//! A chain keeps its allocator, and an empty one has asked for no memory: its first chunk lies in it.
//! No clause says in which chunks a chain is kept; the classes of the chunks stand in `classes.rt` alone.
//! `slice` shows words where they lie, as far as they lie together. Left out: a word is never changed, and only the last are given up.
#![tactic(auto)]

mod chain;
mod chunk;
mod classes;
mod pieces;
mod spilled;

pub use chain::Chain;
pub use chunk::Chunk;

#[cfg(test)]
mod tests;
