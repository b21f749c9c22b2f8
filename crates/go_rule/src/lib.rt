//! The rule of the ring on a shared table, and one function for each kind of atomic step on it.
//!
//! Contracts see a ring as its table, whose key tells how it was made (`src/layout.rt`), and a seat as its view
//! (`src/view.rt`): what its thread knows of the log, what it owes and owns, its shares, and its stake in the parts.
//! `specs/Rule.antt` is the rule, over the words, the parts at home and all views. It holds between any two steps of
//! any threads, so each function says what its caller's seat knows afterwards, whatever the other seats do meanwhile.
//! What a step makes of a view is said in the words of `go_core`, whose lemmas carry its proofs. A part is taken with its
//! turn and given back with it (`specs/Turns.antt`); in between one seat has it in the slot that it took last.
//! Left out: that a step ever runs, and in which order the steps of two threads come.
#![tactic(auto)]

mod closing;
mod flags;
mod layout;
mod loads;
mod plays;
mod rule;
mod shares;
mod steps;
mod turns;
mod view;
mod workers;

pub use closing::{Closed, close};
pub use flags::{abandon, load_flag, store_flag};
pub use layout::{Key, Layout};
pub use loads::{load_ahead, load_archived, load_durable, load_ending, load_head};
pub use plays::{
    Abandon, Ahead, Archive, Archived, Claim, Cut, Durable, Edges, Ending, Ends, Flag, Flush,
    Framed, Give, Head, Ordered, Place, Raise, Shares, Store, Stored, Take, Tie, Turn,
};
pub use rule::{GoRule, Opened, Ring, Seat, Shared, Unopened};
pub use shares::{join, split};
pub use steps::{claim, store};
pub use turns::{give_turn, take_turn};
pub use view::{About, Note, PlacedPin, SeatView, Share, Stake, Stand, Told};
pub use workers::{load_ordered, store_archived, store_durable};

#[cfg(test)]
mod tests;
#[cfg(test)]
mod turn_tests;
