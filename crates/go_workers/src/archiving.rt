// A turn of the archiver: what it takes is given to the shards, and the archived front is moved behind it.
ghost use Rattle.std.specs.Prelude.{◌≡◌, ◌+◌, ◌^◌, ◌<◌, ◌≤◌, ◌∷◌, ℕ, true, length, Contains, MatchResult, OnOk};
ghost use Rattle.go_rule.specs.Steps.{IsAt};
ghost use Rattle.go_rule.specs.Views.{frame_of};
ghost use Rattle.go_shard.specs.Split.{IsSplit};
ghost use Rattle.go_workers.specs.Turns.{Archives, Refused, HasServed, MayBringOn};

use crate::bringing::brought;
use crate::own_fronts::own_archived;
use crate::splitting::split;
use crate::tried::Tried;
use crate::turn::Turn;
use go_disk::Disk;
use go_piece::Piece;
use go_ring::RingCalls;
use go_rule::{Ring, Seat};
use go_turns::{Hold, Lifted, give, take};
use go_word::{Edge, Edges};
use std::alloc::{AllocError, Global};
use std::sync::Wait;
use std::thread::Threads;

/// Takes entries from the archived front on, into a buffer that holds what the archiver took before; brings each shard on to their end,
/// and moves the front there. The lists' memory is used again.
///
/// After want of memory the front is where it was. Some shards may have been brought on: the next turn takes the same entries again, and
/// gives each shard what it lacks.
pub fn archive_turn<D: Disk, R: Threads + Wait + Sync>(
    rt: &R,
    alloc: Global,
    ring: &Ring<Piece<D>>,
    seat: &mut Seat<Piece<D>>,
    buf: &mut [Edge],
    lists: &mut Vec<Edges>,
) -> Result<Turn, AllocError>
    requires at { IsAt ring.now.table.shared.table_id seat.old.table_id seat.old.me.0 }
    requires archives { seat.old.me.0.core.archives ≡ true }
    requires shards { (1 ≤ ring.now.shards) × (ring.now.shards < 2 ^ 32) }
    requires some { 1 ≤ length buf.old }
    requires room { seat.old.me.0.core.taken ≤ seat.old.me.0.core.archived + length buf.old }
    ensures stays { (seat.new.table_id ≡ seat.old.table_id) × (seat.new.id ≡ seat.old.id) }
    ensures long { length buf.new ≡ length buf.old }
    ensures fits { seat.new.me.0.core.taken ≤ seat.new.me.0.core.archived + length buf.old }
    ensures turn { MatchResult result
        (λ turn. Archives (frame_of ring.now.table.shared.key) ring.now.shards (length buf.old) seat.old.me turn seat.new.me)
        (λ _. Refused (frame_of ring.now.table.shared.key) seat.old.me.0 seat.old.me.0.core.archived seat.new.me.0.core.archived
        seat.old.me seat.new.me) }
{
    let from = own_archived(ring, seat);
    let count = ring.take(seat, from, buf);
    if count == 0 {
        return Ok(Turn::Idle { front: from });
    }
    let shards = ring.shards as u32;
    split(rt, alloc, &buf[..count], shards, lists)?;
    bring_all_on(rt, ring, seat, from, &buf[..count], lists)?;
    let front = from + count as u64;
    ring.advance_archived(seat, front);
    Ok(Turn::Moved { front })
}

// Brings each shard on to the end of a run, each in its turn.
fn bring_all_on<D: Disk, R: Wait>(
    rt: &R,
    ring: &Ring<Piece<D>>,
    seat: &mut Seat<Piece<D>>,
    from: u64,
    run: &[Edge],
    lists: &[Edges],
) -> Result<(), AllocError>
    requires at { IsAt ring.now.table.shared.table_id seat.old.table_id seat.old.me.0 }
    requires shards { (length lists.now ≡ ring.now.shards) × (ring.now.shards < 2 ^ 32) }
    requires split { IsSplit ring.now.shards run.now lists.now }
    requires may { MayBringOn from run.now seat.old.me.0 }
    ensures stays { (seat.new.table_id ≡ seat.old.table_id) × (seat.new.id ≡ seat.old.id) }
    ensures served { HasServed (frame_of ring.now.table.shared.key) seat.old.me seat.new.me }
    ensures stood { OnOk result ((place : ℕ) → place < ring.now.shards →
        Contains seat.new.me.0.stake.stood (record { place = place; front = from + length run.now })) }
{
    let mut place = 0;
    while place < lists.len() as u32 {
        bring_place_on(rt, ring, seat, place, from, run, lists)?;
        place += 1;
    }
    Ok(())
}

// Brings the shard of a place on to the end of a run, in its turn.
fn bring_place_on<D: Disk, R: Wait>(
    rt: &R,
    ring: &Ring<Piece<D>>,
    seat: &mut Seat<Piece<D>>,
    place: u32,
    from: u64,
    run: &[Edge],
    lists: &[Edges],
) -> Result<(), AllocError>
    requires at { IsAt ring.now.table.shared.table_id seat.old.table_id seat.old.me.0 }
    requires shards { (length lists.now ≡ ring.now.shards) × (ring.now.shards < 2 ^ 32) }
    requires place { place < ring.now.shards }
    requires split { IsSplit ring.now.shards run.now lists.now }
    requires may { MayBringOn from run.now seat.old.me.0 }
    ensures stays { (seat.new.table_id ≡ seat.old.table_id) × (seat.new.id ≡ seat.old.id) }
    ensures served { HasServed (frame_of ring.now.table.shared.key) seat.old.me seat.new.me }
    ensures stood { OnOk result (Contains seat.new.me.0.stake.stood (record { place = place; front = from + length run.now })) }
{
    let Lifted { key, part } = take(rt, ring, seat, place).lift();
    let Tried { piece, done } = brought(part, place, from, run, lists);
    give(ring, seat, Hold::back(key, piece));
    done
}
