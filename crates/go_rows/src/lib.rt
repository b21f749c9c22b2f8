//! Lists of numbers side by side: one list of targets, and where each row ends in it.
//!
//! Contracts see `Rows` as a list of lists of numbers; `rows_from` of `specs/Rows.antt` says how it lies in memory.
//! A caller may rely on this: a row is read where it lies, without a copy; a row that is pushed comes last and leaves those before it
//! as they were; a push that is refused for want of memory leaves all rows as they were.
//! `clear` keeps the memory for the next rows. Dropping gives it back.
//! Left out: a row isn't changed or taken out again.
#![tactic(auto)]

mod rows;

pub use rows::Rows;

#[cfg(test)]
mod tests;
