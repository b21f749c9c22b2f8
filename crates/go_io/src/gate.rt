// A gate that the threads of the store pass, for tests.

use std::sync::atomic::{AtomicU8, AtomicU32, AtomicU64, Ordering};

/// One of the two workers that move entries out of the ring.
#[derive(Clone, Copy, Debug, PartialEq, Eq)]
pub enum Worker {
    /// Moves entries to the shards.
    Archiver,
    /// Moves entries to the log file.
    Flusher,
}

/// A gate, by which a test holds a session or a worker back until it may go on. Nothing that a contract sees
/// is changed by passing it.
pub trait Gate {
    /// Comes before each try of a session's command. Sessions count from 1, commands from 0.
    fn pass(&self, session: u8, command: u32);

    /// Comes before each turn of a worker, with the front that it has reached.
    fn work(&self, worker: Worker, front: u64);
}

/// A gate that holds nobody back.
#[derive(Clone, Copy, Debug)]
pub struct NoGate;

impl Gate for NoGate {
    fn pass(&self, _session: u8, _command: u32) {}

    fn work(&self, _worker: Worker, _front: u64) {}
}

/// A gate that holds nobody back and notes who passes it, for tests. Several threads may pass it at once; the notes
/// on the last try are whole where one thread alone does. No clause speaks of what it noted.
#[derive(Drop)]
pub struct CountingGate {
    tries: AtomicU64,
    session: AtomicU8,
    command: AtomicU32,
    turns: AtomicU64,
}

impl CountingGate {
    /// A gate that nobody has passed.
    pub fn new() -> CountingGate {
        CountingGate {
            tries: AtomicU64::new(0),
            session: AtomicU8::new(0),
            command: AtomicU32::new(0),
            turns: AtomicU64::new(0),
        }
    }

    /// How often a session passed it.
    pub fn tries(&self) -> u64 {
        self.tries.load(Ordering::SeqCst)
    }

    /// The session that passed it last, and the command that it then tried; 0 and 0 where none did.
    pub fn last(&self) -> (u8, u32) {
        (
            self.session.load(Ordering::SeqCst),
            self.command.load(Ordering::SeqCst),
        )
    }

    /// How often a worker passed it.
    pub fn turns(&self) -> u64 {
        self.turns.load(Ordering::SeqCst)
    }
}

impl Gate for CountingGate {
    fn pass(&self, session: u8, command: u32) {
        self.session.store(session, Ordering::SeqCst);
        self.command.store(command, Ordering::SeqCst);
        self.tries.fetch_add(1, Ordering::SeqCst);
    }

    fn work(&self, _worker: Worker, _front: u64) {
        self.turns.fetch_add(1, Ordering::SeqCst);
    }
}
