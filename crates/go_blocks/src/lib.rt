//! The bytes of a log file: writing its header and its blocks, and reading a file whole.
//!
//! Contracts see bytes as a list of numbers, a log as the list of its entries, and a file that was
//! read as its number of vertices, its entries, the places of its blocks and of its closed gate.
//! `specs/File.antt` says which bytes stand for which log, by the table of fields and apart from
//! both directions, and `specs/Faults.antt` which place of other bytes offends first.
//! A caller may rely on this: bytes stand for one log at most, what is read is what they stand for,
//! a fault is the first one, and a header followed by opened blocks is a file of their entries. The
//! clauses of `file_laws`, `header` and `write_block` say how a file goes on and what a torn write
//! behind its closed gate leaves, so that no caller opens the definitions.
//! Offsets, sizes and letters stand once, in `src/layout.rt`; `docs/FORMAT.md` shows them as a table.
//! Left out: the device that holds the bytes, and when a gate is opened.
#![tactic(auto)]

mod fault;
mod fields;
mod laws;
mod layout;
mod log_file;
mod making;
mod numbers;
mod reader;
mod writer;

pub use fault::{Bad, BadKind, FileFault};
pub use laws::file_laws;
pub use layout::{CLOSED, COUNT_LIMIT, FIRST_GATE, HEADER_LENGTH, OPEN, WORDS_AT};
pub use log_file::{BlockPlace, LogFile};
pub use making::{header, unmade};
pub use reader::read_file;
pub use writer::write_block;

#[cfg(test)]
mod tests;
