//! What left the ring, in parts that threads take in turns: the shards, and the log's file.
//!
//! A `Piece` is a shard, the log on its disk, or what is left of that log once its disk failed. It is a `Part` of go_core,
//! so a ring of go_rule holds pieces at home, lends each to one seat at a time, and asks of what comes back that it is a
//! lawful successor. `specs/Pieces.antt` has what a piece means there, in the words of go_shard and go_durable: how far it
//! reaches, where it fits, which log it stands for, of which fronts it tells, and what a crash may have left of it.
//! A caller may rely on `proofs/ShardCalls.antt` and `proofs/FileCalls.antt`: what a call of a shard or of a journal ensures
//! is what the ring asks of a part that is given back.
//! Left out: who takes which turn, and when.
#![tactic(auto)]

mod laying;
mod piece;

pub use laying::lay_out;
pub use piece::Piece;

#[cfg(test)]
mod callers;
#[cfg(test)]
mod ring_tests;
#[cfg(test)]
mod tests;
