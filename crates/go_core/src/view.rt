// What one party knows, and what it has still to do.
ghost use Rattle.std.specs.Prelude.{◌≡◌};

use crate::entry::{Entry, Load};
use std::collections::LinkedList;

/// What one party knows of the log, and which entries of it are its own.
#[derive(Drop)]
pub struct View {
    /// Whether the party takes part; one that was joined into another doesn't.
    pub live: bool,
    /// Whether it moves the archived front.
    pub archives: bool,
    /// Whether it moves the durable front.
    pub flushes: bool,
    /// How many entries from the log's beginning it has seen.
    pub seen: u64,
    /// How many of them a worker has taken, in their order.
    pub taken: u64,
    /// The length of the log that it knows.
    pub head: u64,
    /// The archived front that it knows.
    pub archived: u64,
    /// The durable front that it knows.
    pub durable: u64,
    /// Whether it raised the flag for the disk.
    pub disk_raised: bool,
    /// Whether it raised the flag for want of memory.
    pub memory_raised: bool,
    /// The entries that it claimed and has still to store.
    pub pending: LinkedList<Entry>,
    /// The entries that it claimed and will never store.
    pub abandoned: LinkedList<Entry>,
    /// The entries that it stored, in the order of their positions.
    pub own: LinkedList<Entry>,
    /// Those of each party that was joined into it.
    pub joined: LinkedList<LinkedList<Entry>>,
    /// The words of its present copy.
    pub loads: LinkedList<Load>,
    /// How many entries it had seen as the present copy began.
    pub marked: u64,
    /// Whether its last step read the length of the log.
    pub fresh: bool,
}

impl View {
    ghost use Rattle.go_core.specs.Parts.{reach_of};

    // How far it may bring a shard on.
    pub(crate) fn reach(&self) -> u64
        ensures { result ≡ reach_of self.now }
    {
        if self.archives { self.taken } else { 0 }
    }
}
