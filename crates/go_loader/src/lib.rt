//! Edges in bulk: files of edges, as text or as words, and a generator of them.
//!
//! Contracts see a file as its bytes and what is read of it as the list of its entries. `read_edges` gives the entries of a text, a
//! line each, or of a binary file, a word each, or tells the first item that is none. What an item is and how it reads stands in
//! `specs/TextFile.antt` and `specs/BinaryFile.antt`; `specs/Reading.antt` goes over the items, and `loader_laws` says above it what
//! comes of that: each item that isn't skipped has its entry, in order, or one item has the first fault.
//! `generate` gives the same entries for the same number always: `specs/Generated.antt` says which.
//! Vertices are judged against the number that the caller gives. Want of memory is told apart from faults.
//! Left out: files with further columns, edges without direction, and compressed files.
#![tactic(auto)]

mod binary;
mod fault;
mod generator;
mod laws;
mod line;
mod reader;
mod text;

pub use fault::LoadFault;
pub use generator::generate;
pub use laws::loader_laws;
pub use reader::read_edges;

#[cfg(test)]
mod tests;
