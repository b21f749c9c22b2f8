// Fronts of the log are looked at and waited for, and what is older is compacted.
ghost use Rattle.std.specs.Prelude.{◌≡◌, ◌≤◌, true, IfOk, IfSome, OnErr};
ghost use Rattle.go_api.specs.Calls.{Compacts, OnlySees, Syncs, TellsMet, Waits};
ghost use Rattle.go_rule.specs.Steps.{IsAt};
ghost use Rattle.go_rule.specs.Views.{frame_of};
ghost use Rattle.go_turns.specs.Going.{HasGoneOn};
ghost use Rattle.go_live.specs.Going.{ServesOn};
ghost use Rattle.go_live.specs.Handles.{IsHandle, SeesTo, stands_in};

use crate::handle::Handle;
use crate::refreshing::refresh;
use go_api::{Reached, Stop};
use go_core::{HEAD, Part};
use go_disk::Disk;
use go_piece::Piece;
use go_ring::RingCalls;
use go_rule::{Ring, Seat};
use go_workers::compact_all;
use std::sync::Wait;
use std::thread;

impl<D: Disk> Handle<D> {
    /// Whether the log has come to a front, as far as it is seen by one look.
    pub(crate) fn until(&mut self, ring: &Ring<Piece<D>>, front: u64) -> Result<Reached, Stop>
        requires is { IsHandle ring.now.table.shared.table_id ring.now.table.shared.key self.old }
        ensures is { IsHandle ring.now.table.shared.table_id ring.now.table.shared.key self.new }
        ensures waits { Waits front result (stands_in ring.now.table.shared.key self.old) (stands_in ring.now.table.shared.key self.new) }
        ensures serves { ServesOn self.old self.new }
    {
        self.look(ring, front);
        if front <= self.seen {
            return Ok(Reached::Yes { front });
        }
        match self.stopped(ring) {
            None => Ok(Reached::NotYet { seen: self.seen }),
            Some(why) => Err(why),
        }
    }

    // Sees the log up to the end of a copy, where a front isn't seen yet and the log is known to be so long.
    fn look(&mut self, ring: &Ring<Piece<D>>, front: u64)
        requires is { IsHandle ring.now.table.shared.table_id ring.now.table.shared.key self.old }
        ensures is { IsHandle ring.now.table.shared.table_id ring.now.table.shared.key self.new }
        ensures sees { OnlySees (stands_in ring.now.table.shared.key self.old) (stands_in ring.now.table.shared.key self.new) }
        ensures serves { ServesOn self.old self.new }
    {
        if self.seen < front && front <= ring.table.shared.peek(HEAD) {
            self.copy(ring);
        }
    }

    // Copies the ring once, and sees the log up to the end of the copy.
    fn copy(&mut self, ring: &Ring<Piece<D>>)
        requires is { IsHandle ring.now.table.shared.table_id ring.now.table.shared.key self.old }
        ensures is { IsHandle ring.now.table.shared.table_id ring.now.table.shared.key self.new }
        ensures sees { OnlySees (stands_in ring.now.table.shared.key self.old) (stands_in ring.now.table.shared.key self.new) }
        ensures serves { ServesOn self.old self.new }
    {
        let copied = ring.copy(&mut self.seat, &mut self.words);
        refresh(ring, &mut self.seat);
        self.seen = self.seen.max(copied.end);
    }

    // Why work has to stop, if it has to, by a look at the flag.
    fn stopped(&mut self, ring: &Ring<Piece<D>>) -> Option<Stop>
        requires is { IsHandle ring.now.table.shared.table_id ring.now.table.shared.key self.old }
        ensures is { IsHandle ring.now.table.shared.table_id ring.now.table.shared.key self.new }
        ensures sees { OnlySees (stands_in ring.now.table.shared.key self.old) (stands_in ring.now.table.shared.key self.new) }
        ensures same { self.new.seen ≡ self.old.seen }
        ensures met { IfSome result (λ why. TellsMet why (stands_in ring.now.table.shared.key self.new)) }
        ensures serves { ServesOn self.old self.new }
    {
        let why = ring.flag(&mut self.seat);
        refresh(ring, &mut self.seat);
        if let Some(why) = why {
            self.note(why);
        }
        why
    }

    /// Waits until all own entries are durable and all that was shown, and answers a front up to which the log is.
    pub(crate) fn sync<R: Wait>(&mut self, rt: &R, ring: &Ring<Piece<D>>) -> Result<u64, Stop>
        requires is { IsHandle ring.now.table.shared.table_id ring.now.table.shared.key self.old }
        ensures is { IsHandle ring.now.table.shared.table_id ring.now.table.shared.key self.new }
        ensures syncs { Syncs result (stands_in ring.now.table.shared.key self.old) (stands_in ring.now.table.shared.key self.new) }
        ensures serves { ServesOn self.old self.new }
    {
        let least = self.least();
        let durable = wait_for_durable(rt, ring, &mut self.seat, least);
        refresh(ring, &mut self.seat);
        match durable {
            Ok(front) => {
                self.seen = front;
                Ok(front)
            }
            Err(why) => {
                self.note(why);
                Err(why)
            }
        }
    }

    /// Compacts each shard as far as it may be.
    pub(crate) fn compact<R: Wait>(&mut self, rt: &R, ring: &Ring<Piece<D>>) -> Result<(), Stop>
        requires is { IsHandle ring.now.table.shared.table_id ring.now.table.shared.key self.old }
        ensures is { IsHandle ring.now.table.shared.table_id ring.now.table.shared.key self.new }
        ensures compacts { Compacts result (stands_in ring.now.table.shared.key self.old) (stands_in ring.now.table.shared.key self.new) }
        ensures serves { ServesOn self.old self.new }
    {
        let compacted = compact_all(rt, ring, &mut self.seat);
        refresh(ring, &mut self.seat);
        match compacted {
            Ok(()) => Ok(()),
            Err(_) => Err(Stop::Memory),
        }
    }
}

// Loads the durable front until it has come to a front. In between it looks at the flag, and lets other threads go on.
fn wait_for_durable<T: Part, R: Wait>(
    rt: &R,
    ring: &Ring<T>,
    seat: &mut Seat<T>,
    front: u64,
) -> Result<u64, Stop>
    requires at { IsAt ring.now.table.shared.table_id seat.old.table_id seat.old.me.0 }
    ensures stays { (seat.new.table_id ≡ seat.old.table_id) × (seat.new.id ≡ seat.old.id) }
    ensures hand { seat.new.me.1 ≡ seat.old.me.1 }
    ensures on { HasGoneOn (frame_of ring.now.table.shared.key) seat.old.me.0 seat.new.me.0 }
    ensures comes { IfOk result (λ durable. (front ≤ durable) × SeesTo durable seat.new.me.0 × (durable ≤ seat.new.me.0.core.durable)) }
    ensures stops { OnErr result (seat.new.me.0.told.flagged ≡ true) }
{
    for _ in rt.forever() {
        let durable = ring.durable(seat);
        if front <= durable {
            return Ok(durable);
        }
        if let Some(why) = ring.flag(seat) {
            return Err(why);
        }
        thread::yield_now();
    }
    unreachable!()
}
