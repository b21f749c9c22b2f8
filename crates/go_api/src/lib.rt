//! What the sessions of a store and the store agree on.
//!
//! `Store` is one session's handle of a store. Contracts see it as a `Standing` of specs/Standing.antt: what the session put and
//! where, what it has seen, what stands at its places. specs/Calls.antt has what each call answers and leaves, in clauses that a
//! store meets too whose log others write at the same time.
//! `Laid` of specs/Laid.antt says how a log is made up: the old one and then an interleaving of what the sessions put, each
//! session's entries in its own order. Each position behind the old log is owned by one session, once.
//! A caller may rely on the laws of `laid_alone`: what one session alone puts can lie behind a log in one way only; and of
//! `laid_merged`: where all is there, what lies behind the old log is a merge of what the sessions put (specs/Merge.antt).
//! `positions` of specs/Alone.antt are the positions that it then owns; proofs/AloneLemmas.antt exports the lemmas on them.
//! `Stop`, `Place`, `Offer`, `Reached`, `Span` and `Setup` are plain data: why a store stops, what a session keeps at a place, what some
//! calls answer, and how large a store is.
//! Left out: which order of several sessions comes about, which no contract says.
#![tactic(auto)]

mod alone;
mod answers;
mod limits;
mod merging;
mod place;
mod setup;
mod stop;
mod store;

pub use alone::laid_alone;
pub use answers::{Offer, Reached, Span};
pub use limits::{FEWEST_SLOTS, LOG_ENTRIES, SHARD_LIMIT, SLOT_LIMIT};
pub use merging::laid_merged;
pub use place::{PLACES, Place};
pub use setup::Setup;
pub use stop::Stop;
pub use store::Store;
