//! The neighbours of a vertex from its own entries: a fold that takes a long list in few steps.
//!
//! Contracts see entries as the words that hold them; `net_of` of `specs/Net.antt` is the list of neighbours
//! that some words make of an earlier one, entry by entry: an addition comes last, a deletion takes the
//! earliest copy of its destination.
//! A caller may rely on this: `net` gives just that list, `take_in` makes it of the list in hand, whatever the
//! words hold, and for words of one vertex it is the fold of that vertex. A call takes some n log n steps for n
//! words at most, also where half of them are deletions. `take_in_turns` asks for no memory beside the list's own,
//! and stops where looking for copies would take long.
//! After want of memory nothing is claimed of the list.
//! Left out: words of several vertices at once. No clause says how copies are taken out.
#![tactic(auto)]

mod count;
mod fold;
mod tally;
mod targets;
mod turns;

pub use fold::{net, take_in};
pub use turns::take_in_turns;

#[cfg(test)]
mod tests;
