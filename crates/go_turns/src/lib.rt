//! Turns of parts: a part is taken out of a ring with its turn, and given back with it; meanwhile one seat has it alone.
//!
//! Contracts see a ring by its table and its key, and a seat as its view and the slots in its hand, all of `go_rule`. A
//! `Hold` is a part with its turn, seen as its fields. `specs/Holding.antt` has what a seat has of a part in hand, how it
//! comes to it, and as what it may give it back; between the two it may take any other step that leaves these alone.
//! A turn has to be given back: neither a `Hold` nor a `TurnKey` can be let go.
//! Left out: progress, fairness, time, and that a part is what its own type says.
#![tactic(auto)]

mod giving;
mod hold;
mod key;
mod lifted;
mod taking;

pub use giving::give;
pub use hold::Hold;
pub use key::TurnKey;
pub use lifted::Lifted;
pub use taking::{take, try_take};

#[cfg(test)]
mod tests;
#[cfg(test)]
mod thread_tests;
#[cfg(test)]
mod wait_tests;
