//! The rule that ties the words of a ring, and what its parties know, to one log.
//!
//! Contracts see a machine as its frame, its words, its parties and its two parts
//! (`specs/Machine.antt`), and a party as its view of the log and its stake in the parts. `specs/Rule.antt` is the rule, over
//! plain lists of words and views, and `Row` is the table of the acts.
//! A caller may rely on it that each step is its row, that no step breaks the rule, and on the laws
//! of `replay` over every list of events.
//! `proofs/` exports a lemma for each kind of step over plain lists, so that a ring with threads
//! that keeps the same rule can cite them; there no value of a `View` need be made.
//! Left out: threads, how long a step takes, and what entries a part holds.
#![tactic(auto)]

mod act;
mod causes;
mod changes;
mod conditions;
mod copies;
mod edges;
mod entry;
mod front_steps;
mod home;
mod lists;
mod machine;
mod opening;
mod part;
mod party;
mod pin;
mod play;
mod run;
mod stake;
mod steps;
mod successor;
mod turns;
mod view;
mod words;

pub use act::{Act, Event, Out, Role};
pub use edges::EdgeSeq;
pub use entry::{Entry, Load};
pub use go_word::Pin;
pub use home::{Home, Parts};
pub use machine::Core;
pub use opening::ring_words;
pub use part::{Part, PartState};
pub use party::Party;
pub use pin::Pins;
pub use run::replay;
pub use stake::{Hold, Stake};
pub use view::View;
pub use words::{ARCHIVED, DURABLE, FLAG, HEAD, TURNS};

#[cfg(test)]
mod parts_tests;
#[cfg(test)]
mod random_parts;
#[cfg(test)]
mod random_tests;
#[cfg(test)]
mod tests;
