//! Scripts: the lines that a session runs, read from bytes into commands; and the rule on lines that wait.
//!
//! `parse` reads a text once, line by line, and answers its commands with their lines, or the first line with a fault.
//! Contracts see a `Script` as the list of its steps. That each command names one of the places 0 to 3, where it names
//! one, and finds it free, with a view or with a stream as it needs it, is a fact of the type: `len` and `command` tell it.
//! The grammar says exactly what is answered for a text. It goes line by line itself, so `script_laws` says above it
//! what a reading and a first fault are, of all lines at once.
//! Vertices are judged against the number that the caller gives, and no script read has one at or above it.
//! `check_until` finds the first line of several scripts that waits for more than is certain to come.
//! Want of memory is told apart from faults, and nothing else but the commands and the names of files takes memory.
//! Left out: what commands do, and any judgement on a line behind the first faulty one.
#![tactic(auto)]

mod arguments;
mod command;
mod early;
mod fault;
mod laws;
mod limits;
mod line;
mod parsing;
mod places;
mod puts;
mod script;
mod step;
mod tally;
mod until;
mod usage;
mod verbs;

pub use command::Command;
pub use fault::ScriptFault;
pub use laws::script_laws;
pub use limits::{RANK_LIMIT, UPDATE_LIMIT};
pub use parsing::parse;
pub use puts::Puts;
pub use script::Script;
pub use step::Step;
pub use until::{Place, check_until};
pub use usage::{Kind, Use};

#[cfg(test)]
mod command_tests;
#[cfg(test)]
mod fault_tests;
#[cfg(test)]
mod until_tests;
