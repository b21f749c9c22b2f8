// A turn of the flusher: what it takes is appended to the log's file, and the durable front is moved behind it.
ghost use Rattle.std.specs.Prelude.{◌≡◌, ◌+◌, ◌^◌, ◌<◌, ◌≤◌, ◌∷◌, ◌⊎◌, ℕ, true, length, Contains, MatchResult, OnOk, OnErr};
ghost use Rattle.go_rule.specs.Steps.{IsAt};
ghost use Rattle.go_rule.specs.Views.{frame_of};
ghost use Rattle.go_workers.specs.Turns.{Flushes, Stops, HasRead, HasServed, HasFiled, raised_by};

use crate::appending::{Filed, appended};
use crate::own_fronts::own_durable;
use crate::turn::Turn;
use go_api::Stop;
use go_disk::Disk;
use go_piece::Piece;
use go_ring::RingCalls;
use go_rule::{Ring, Seat};
use go_turns::{Hold, Lifted, give, take};
use go_word::Edge;
use std::sync::Wait;

/// Takes entries from the durable front on, into a buffer for one block; appends what the file lacks of them, and moves the front behind
/// them.
///
/// Where that was stopped the front is where it was. A fault of the disk is raised before the file, which is spent then, is given back.
pub fn flush_turn<D: Disk, R: Wait>(
    rt: &R,
    ring: &Ring<Piece<D>>,
    seat: &mut Seat<Piece<D>>,
    buf: &mut [Edge],
) -> Result<Turn, Stop>
    requires at { IsAt ring.now.table.shared.table_id seat.old.table_id seat.old.me.0 }
    requires flushes { seat.old.me.0.core.flushes ≡ true }
    requires shards { ring.now.shards < 2 ^ 32 }
    requires some { 1 ≤ length buf.old }
    requires few { length buf.old ≤ 65536 }
    ensures stays { (seat.new.table_id ≡ seat.old.table_id) × (seat.new.id ≡ seat.old.id) }
    ensures long { length buf.new ≡ length buf.old }
    ensures turn { MatchResult result
        (λ turn. Flushes (frame_of ring.now.table.shared.key) ring.now.shards (length buf.old) seat.old.me turn seat.new.me)
        (λ why. Stops D.device (frame_of ring.now.table.shared.key) ring.now.shards seat.old.me why seat.new.me) }
{
    let from = own_durable(ring, seat);
    let count = ring.take(seat, from, buf);
    if count == 0 {
        return Ok(Turn::Idle { front: from });
    }
    append_run(rt, ring, seat, from, &buf[..count])?;
    let front = from + count as u64;
    ring.advance_durable(seat, front);
    Ok(Turn::Moved { front })
}

// Appends to the file what it lacks of a run, in its turn.
fn append_run<D: Disk, R: Wait>(
    rt: &R,
    ring: &Ring<Piece<D>>,
    seat: &mut Seat<Piece<D>>,
    from: u64,
    run: &[Edge],
) -> Result<(), Stop>
    requires at { IsAt ring.now.table.shared.table_id seat.old.table_id seat.old.me.0 }
    requires shards { ring.now.shards < 2 ^ 32 }
    requires from { from ≤ seat.old.me.0.core.durable }
    requires few { length run.now ≤ 65536 }
    requires read { HasRead from run.now seat.old.me.0 }
    ensures stays { (seat.new.table_id ≡ seat.old.table_id) × (seat.new.id ≡ seat.old.id) }
    ensures filed { HasFiled D.device (frame_of ring.now.table.shared.key) ring.now.shards (from + length run.now) seat.old.me result seat.new.me }
{
    let Lifted { key, part } = take(rt, ring, seat, ring.shards as u32).lift();
    let Filed { piece, stop } = appended(part, from, run);
    raise_fault(ring, seat, stop);
    give(ring, seat, Hold::back(key, piece));
    match stop {
        None => Ok(()),
        Some(why) => Err(why),
    }
}

// Raises a fault of the disk, where there was one.
fn raise_fault<D: Disk>(ring: &Ring<Piece<D>>, seat: &mut Seat<Piece<D>>, stop: Option<Stop>)
    requires at { IsAt ring.now.table.shared.table_id seat.old.table_id seat.old.me.0 }
    ensures stays { (seat.new.table_id ≡ seat.old.table_id) × (seat.new.id ≡ seat.old.id) }
    ensures raised { seat.new.me ≡ (raised_by stop seat.old.me.0, seat.old.me.1) }
{
    if let Some(Stop::Disk) = stop {
        ring.raise(seat, Stop::Disk);
    }
}
