// The shards of a ring are compacted, each in its turn.
ghost use Rattle.std.specs.Prelude.{◌≡◌, ◌^◌, ◌<◌, ◌≤◌, ℕ, OnOk};
ghost use Rattle.go_rule.specs.Steps.{IsAt};
ghost use Rattle.go_rule.specs.Views.{frame_of};
ghost use Rattle.go_workers.specs.Turns.{HasTurned, HasCompactedAt, CompactsAt};

use crate::compacting::compacted;
use crate::tried::Tried;
use go_disk::Disk;
use go_piece::Piece;
use go_ring::RingCalls;
use go_rule::{Ring, Seat};
use go_turns::{Hold, Lifted, give, take};
use std::alloc::AllocError;
use std::sync::Wait;

/// Compacts each shard up to the greatest front that it keeps, is at most each of its pins, and is at most the archived front as it is
/// loaded while the shard is in hand.
///
/// After want of memory the shards behind the one that was refused are as they were, and so is that one.
pub fn compact_all<D: Disk, R: Wait>(
    rt: &R,
    ring: &Ring<Piece<D>>,
    seat: &mut Seat<Piece<D>>,
) -> Result<(), AllocError>
    requires at { IsAt ring.now.table.shared.table_id seat.old.table_id seat.old.me.0 }
    requires shards { ring.now.shards < 2 ^ 32 }
    ensures stays { (seat.new.table_id ≡ seat.old.table_id) × (seat.new.id ≡ seat.old.id) }
    ensures turned { HasTurned (frame_of ring.now.table.shared.key) seat.old.me seat.new.me }
    ensures compacted { OnOk result ((place : ℕ) → place < ring.now.shards →
        HasCompactedAt D.device (frame_of ring.now.table.shared.key) ring.now.table.shared.table_id.slots place seat.old.me seat.new.me) }
{
    let mut place = 0;
    while place < ring.shards as u32 {
        compact_place(rt, ring, seat, place)?;
        place += 1;
    }
    Ok(())
}

// Compacts the shard of a place, in its turn.
fn compact_place<D: Disk, R: Wait>(
    rt: &R,
    ring: &Ring<Piece<D>>,
    seat: &mut Seat<Piece<D>>,
    place: u32,
) -> Result<(), AllocError>
    requires at { IsAt ring.now.table.shared.table_id seat.old.table_id seat.old.me.0 }
    requires place { place < ring.now.shards }
    ensures stays { (seat.new.table_id ≡ seat.old.table_id) × (seat.new.id ≡ seat.old.id) }
    ensures turned { HasTurned (frame_of ring.now.table.shared.key) seat.old.me seat.new.me }
    ensures compacted { OnOk result
        (CompactsAt D.device (frame_of ring.now.table.shared.key) ring.now.table.shared.table_id.slots place seat.old.me seat.new.me) }
{
    let Lifted { key, part } = take(rt, ring, seat, place).lift();
    let archived = ring.archived(seat);
    let Tried { piece, done } = compacted(part, archived);
    give(ring, seat, Hold::back(key, piece));
    done
}
