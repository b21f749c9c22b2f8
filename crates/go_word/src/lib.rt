//! The entries of a log of edges, what a list of them means, and the words that hold them.
//!
//! Contracts see an entry as its three fields, a log as the list of its entries, the oldest first,
//! and a word as its number. `specs/Log.antt` has the words on logs, `specs/Neighbours.antt` the
//! neighbours of a vertex, and `specs/Word.antt` the words and which entries one can hold.
//! A caller may rely on the definitions and on the laws above them: those of the neighbours are the
//! clauses of `neighbours_laws`, those of words are clauses of `encode`, `blank`, `plain` and
//! `read_plain`, and `proofs/` exports each as a lemma.
//! The layout of a word stands once, at the constants of `src/word.rt`. Proofs elsewhere don't see
//! it: the definitions of words are opaque there, so that another layout changes none of them.
//! `Edges` is a list of entries that is owned, `Ranked` a vertex with its degree. A `Pin` is a front that a view holds on to,
//! under a name: shards and the rule of the ring mean the same by it.
//! Left out: an order of words in memory, files of them, and neighbours faster than the definition.
#![tactic(auto)]

mod edge;
mod edges;
mod laws;
mod neighbours;
mod pin;
mod ranked;
mod raw;
mod word;

pub use edge::{Edge, VERTEX_LIMIT};
pub use edges::Edges;
pub use laws::neighbours_laws;
pub use neighbours::{neighbours_of, remove_first};
pub use pin::Pin;
pub use ranked::Ranked;
pub use raw::raw_of;
pub use word::{ID_LIMIT, blank, decode, encode, is_rotated, matched, plain, read_plain};

#[cfg(test)]
mod tests;
