//! Views over a ring among threads: what a log was at one front, for as long as the view lives.
//!
//! A `LiveView` has how many entries each vertex had at an archived front, the words of the entries from there on, and a pin in each
//! shard at that front. Contracts see it as the record `View`; `IsView` says that it tells of what a seat has seen, and that the seat
//! has its pins. `specs/Taking.antt` has what taking one comes to.
//! A caller may rely on this: a view's `front`, `raw_degree` and `neighbours` are those of the log's first entries, as many as its front,
//! whatever was put, archived, flushed or compacted since; a refusal leaves no pin; a release leaves the pins of other views.
//! Left out: progress, fairness, time, and how long a pin may stand.
#![tactic(auto)]

mod copying;
mod counts;
mod later;
mod live_view;
mod pinning;
mod releasing;
mod settling;
mod taking;
mod turning;

pub use copying::copy_up_to;
pub use live_view::LiveView;
pub use taking::take_view;

#[cfg(test)]
mod fixture;
#[cfg(test)]
mod memory_tests;
#[cfg(test)]
mod tests;
