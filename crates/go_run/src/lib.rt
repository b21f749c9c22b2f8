//! The top call: words, named texts and a disk in; the text of replies, the disk and a status out.
//!
//! `run` does all that the program does, over a shelf of texts, a sink of bytes and a disk that are handed in. Contracts see the
//! words as lists of bytes, the shelf as the map from names to bytes, the sink as the bytes that it took and the disk as what a
//! crash may leave of it, where they tell.
//! A caller may rely on `Ran` of specs/Ran.antt, by cases on the status. At `Done` there is one log, the old one and then what the
//! script puts, the replies to all commands are those that the walk of go_session allows over it, the sink took just their text,
//! and the disk has a file of it. At each moment a crash leaves a part of the log that has the old one. Each refusal comes exactly
//! where the input or the bytes on the disk ask for it. Faults are told only where the counts rose. `message` gives the line that
//! tells a status, and `log_name` the name of the log file that the words ask for.
//! Left out: other sessions and threads, and all that the real folder, output and file do.
//! docs/SCRIPT.md has the commands and the error lines, docs/DEFINITIONS.md the definitions, docs/CRASH.md what a crash leaves.
#![tactic(auto)]

mod driving;
mod error_line;
mod files;
mod found;
mod generating;
mod judging;
mod known;
mod limits;
mod lists;
mod named_text;
mod names;
mod outcome;
mod output;
mod reading;
mod running;
mod setting;
mod starting;
mod status;
mod top;
mod turns;
mod wanted;
mod words;

pub use error_line::message;
pub use limits::{EDGES, LOG_FILE, RING, SCRIPTS, SHARDS, TEXT_BYTES, VERTICES};
pub use outcome::Outcome;
pub use status::Status;
pub use top::{run, run_with};
pub use words::log_name;

#[cfg(test)]
mod block_tests;
#[cfg(test)]
mod command_tests;
#[cfg(test)]
mod compact_tests;
#[cfg(test)]
mod disk_tests;
#[cfg(test)]
mod fixture;
#[cfg(test)]
mod generator_tests;
#[cfg(test)]
mod large_tests;
#[cfg(test)]
mod reading_tests;
#[cfg(test)]
mod refusal_tests;
#[cfg(test)]
mod rows;
#[cfg(test)]
mod session_disk_tests;
#[cfg(test)]
mod session_tests;
#[cfg(test)]
mod tests;
#[cfg(test)]
mod word_tests;
