//! A disk of one file, as a trait that says what a crash may leave, one in memory for tests, and a file of the system.
//!
//! Contracts see a disk by one record, `Device`: what a read gives now (`contents`), what it gave at the last sync that
//! succeeded (`base`), the images that a crash now may leave (`images`), the moment (`clock`), the images of all moments
//! since one (`since`), how often it failed (`faults`), when it was synced (`syncs`), and how often a range was asked for
//! that isn't there (`blunders`). Each call says what it does to all of them, one that fails too, and five laws tie them.
//! Between two syncs a crash may leave any bytes in each written range and behind the old end, with a length between.
//! A call fails only where the count of faults rose in it, so code above can hand a fault on and can't make one up.
//! `MemDisk` tells all, and fails exactly where it was told to; `FileDisk` tells nothing, so no clause speaks of its bytes.
//! No call of a disk takes memory, but the first of a `FileDisk` whose name is a link: `MemDisk` has taken its when it was
//! made. Left out: that a real file behaves as the trait says, and a medium that decays. docs/CRASH.md tells more.
#![tactic(auto)]

mod call;
mod disk;
mod file_disk;
mod folder;
mod image;
mod mem_calls;
mod mem_disk;
mod span;

pub use disk::Disk;
pub use file_disk::FileDisk;
pub use go_text::Failed;
pub use mem_disk::MemDisk;

#[cfg(test)]
mod tests;
