//! Sessions: the replies to a script, and what they must be.
//!
//! Contracts see a `Session` as its number, how long the log was at opening, its commands, the lists that its loads put, and its
//! replies to the first commands. specs/Walk.antt says which replies are allowed: a walk over commands and replies beside one log,
//! with the session's own positions in it. A front that is shown is neither older than what the session saw nor below its own
//! entries, and all that is read in a view is a value over the log's first entries.
//! A caller may rely on `Stepped` of specs/Session.antt: over any `Store` of go_api, each step answers one command, or waits, or
//! finds all answered, or tells that the store stopped, and the walk allows the replies so far over what the handle has seen.
//! `write` gives the session's text, on demand as far as it rests on a durable prefix (specs/Cut.antt).
//! `ask` has a function for each shape of command; specs/Answers.antt says what each needs of the store and makes of it. Questions
//! to a whole view go to go_kernels by `Viewed`, a view of a store as a graph.
//! Left out: which session steps when, and what a store is.
//! docs/DEFINITIONS.md says the walk in plain words.
#![tactic(auto)]

mod asking;
mod buffers;
mod cut;
mod kernels;
mod laws;
mod putting;
mod quota;
mod searching;
mod session;
mod streaming;
mod viewed;
mod viewing;
mod waiting;
mod writing;

pub use laws::walk_laws;
pub use session::{Session, Step};

#[cfg(test)]
mod list_store;
#[cfg(test)]
mod tests;
