//! The store of sessions that are threads: each has a handle of its own of one ring.
//!
//! A `LiveStore` is a `Store` of go_api. Contracts see it as a `Standing`, which is made of what its seat of the ring knows
//! (`specs/Standings.antt`): its own positions are the seat's own entries, and it sees first entries of what the seat has seen.
//! `specs/Handles.antt` has what holds of it between two calls. Entries are put by claims and fills of go_ring; views and streams are
//! those of go_views and go_stream; what is durable or archived is told by the ring's fronts, which workers move meanwhile.
//! A caller may rely on the clauses of `Store`, whatever other threads do with the ring.
//! Left out: progress, fairness and time. A call that waits may do so for ever, as where nobody moves the fronts.
#![tactic(auto)]

mod handle;
mod held;
mod live_store;
mod looking;
mod putting;
mod refreshing;
mod streaming;
mod viewing;

pub use live_store::LiveStore;

#[cfg(test)]
mod fixture;
#[cfg(test)]
mod tests;
