//! Workers, views and streams over one ring, as they are used together: tests alone.
//!
//! The ring is over a disk in memory, with a seat for each role.
#![tactic(auto)]

#[cfg(test)]
mod fixture;
#[cfg(test)]
mod looks;
#[cfg(test)]
mod schedule;
#[cfg(test)]
mod streams;
#[cfg(test)]
mod tests;
#[cfg(test)]
mod thread_tests;
