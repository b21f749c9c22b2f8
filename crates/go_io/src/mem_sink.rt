// A sink in memory, for tests: it tells all it has taken, and fails exactly where it was told to.
ghost use Rattle.std.specs.Prelude.{◌≡◌, ◌↔◌, ℕ, ◌∷◌, ◌++◌, [], ◌≤◌, List, Some, take, IfOk, OnOk, OnErr, IsErr};
ghost use Rattle.go_text.specs.Causes.{HasCause};
ghost use Rattle.go_io.specs.Sink.{IsTake, Takes, TakesNothing};
ghost use Rattle.go_io.specs.MemSink.{Basin, sink_of, FailsAt, count_taken, after_put};

use crate::Sink;
use go_text::{Failed, one_more};
use std::alloc::{AllocError, Global};
use std::marker::Model;

/// A sink in memory, for tests. A put of it takes no memory.
/// Its puts count from 0; from 2^64 - 1 on their number stands still.
#[derive(Drop)]
pub struct MemSink {
    taken: Vec<u8>,
    most: usize,
    room: usize,
    failing: Vec<u64>,
    calls: u64,
    faults: u64,
}

impl Model for MemSink {
    ghost use Rattle.std.specs.Prelude.{ℕ, ◌≤◌};
    ghost use Rattle.std.specs.Vec.{vec_len, vec_capacity};
    ghost use Rattle.go_io.specs.MemSink.{Basin};

    ghost Value = { Basin };

    ghost view = { λ s. record { taken = s.taken.items; most = s.most; room = s.room; failing = s.failing.items; calls = s.calls; faults = s.faults } };

    ghost invariant = { λ s. (1 ≤ s.most) × (vec_len s.taken ≤ s.room) × (s.room ≤ vec_capacity s.taken) };
}

impl MemSink {
    /// An empty sink that takes at most `take` bytes in a call, and `room` bytes in all, for which it has the memory.
    pub fn new(alloc: Global, take: usize, room: usize) -> Result<MemSink, AllocError>
        requires { 1 ≤ take }
        ensures { IfOk result (λ sink. sink ≡ record { taken = []; most = take; room = room; failing = []; calls = 0; faults = 0 }) }
    {
        Ok(MemSink {
            taken: Vec::with_capacity(alloc, room)?,
            most: take,
            room,
            failing: Vec::new(alloc),
            calls: 0,
            faults: 0,
        })
    }

    /// Has the put of this number fail.
    pub fn fail(&mut self, call: u64) -> Result<(), AllocError>
        ensures ok { OnOk result (self.new ≡ record self.old { failing = self.old.failing ++ call ∷ [] }) }
        ensures err { OnErr result (self.new ≡ self.old) }
    {
        self.failing.push(call)?;
        Ok(())
    }

    /// All bytes taken so far.
    pub fn bytes(&self) -> &[u8]
        ensures { result.now ≡ self.now.taken }
    {
        &self.taken
    }
}

impl Sink for MemSink {
    ghost stands = { sink_of };

    fn put(&mut self, bytes: &[u8]) -> Result<usize, Failed>
        ensures count { IfOk result (λ count. IsTake count bytes.now) }
        ensures taken { IfOk result (λ count. Takes (sink_of self.old) (sink_of self.new) (take count bytes.now)) }
        ensures err { OnErr result (TakesNothing (sink_of self.old) (sink_of self.new)) }
        ensures cause { HasCause (sink_of self.old).faults (sink_of self.new).faults result }

        // When it fails, how much it takes where it doesn't, and all that it changes.
        ensures failed { IsErr result ↔ FailsAt self.old bytes.now }
        ensures exact { IfOk result (λ count. count ≡ count_taken self.old bytes.now) }
        ensures after { self.new ≡ after_put self.old bytes.now result }
    {
        let call = self.calls;
        self.calls = one_more(call);
        let left = self.room - self.taken.len();
        if self.failing.contains(&call) || (left == 0 && !bytes.is_empty()) {
            self.faults = one_more(self.faults);
            return Err(Failed);
        }
        let count = self.most.min(left.min(bytes.len()));
        self.taken.extend_from_slice(&bytes[..count]).unwrap();
        Ok(count)
    }
}
