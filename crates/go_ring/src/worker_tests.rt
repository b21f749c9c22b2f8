// Workers over a small ring: what one of them takes, its part and its front after it, and a claim that is held until they moved both fronts.
ghost use Rattle.std.specs.Prelude.{◌≡◌, ◌+◌, ◌≤◌, ◌<◌, ◌^◌, IfSome, true, length};
ghost use Rattle.go_rule.specs.Steps.{IsAt};
ghost use Rattle.go_rule.specs.Samples.{IsFree};
ghost use Rattle.go_ring.specs.Samples.{IsFresh, IsWorker, HasBrought, MayPut};

use crate::tests::{edge_to, fill_in_time, opened, put_one};
use crate::{Fill, RingCalls};
use go_core::PartState;
use go_rule::{Opened, Ring, Seat, give_turn, take_turn};
use go_word::Edge;
use std::test::Fail;

// Brings a worker's part on to what the worker took, where its turn is free.
fn bring_on(ring: &Ring<PartState>, seat: &mut Seat<PartState>, place: u64, front: u64) -> bool
    requires at { IsAt ring.now.table.shared.table_id seat.old.table_id seat.old.me.0 }
    requires free { IsFree seat.old.me }
    requires worker { IsWorker place front seat.old.me.0 }
    requires shards { ring.now.shards ≡ 1 }
    ensures at { IsAt ring.now.table.shared.table_id seat.new.table_id seat.new.me.0 }
    ensures free { result ≡ true → IsFree seat.new.me }
    ensures worker { result ≡ true → IsWorker place front seat.new.me.0 }
    ensures brought { result ≡ true → HasBrought place front seat.new.me.0 }
{
    if take_turn(ring, seat, place) != 0 {
        return false;
    }
    let Some(mut part) = ring.table.shared.exchange(seat, place as usize, None) else {
        unreachable!()
    };
    part.front = part.front.max(front);
    let left = ring.table.shared.exchange(seat, place as usize, Some(part));
    drop(left);
    give_turn(ring, seat, place);
    true
}

// Moves the front of a worker to where its part was brought: the archived one of the shard, and the durable one of the file.
fn move_front(ring: &Ring<PartState>, seat: &mut Seat<PartState>, place: u64, front: u64)
    requires at { IsAt ring.now.table.shared.table_id seat.old.table_id seat.old.me.0 }
    requires free { IsFree seat.old.me }
    requires worker { IsWorker place front seat.old.me.0 }
    requires brought { HasBrought place front seat.old.me.0 }
    requires shards { ring.now.shards ≡ 1 }
    ensures at { IsAt ring.now.table.shared.table_id seat.new.table_id seat.new.me.0 }
    ensures free { IsFree seat.new.me }
    ensures worker { IsWorker place front seat.new.me.0 }
{
    if place == 0 {
        ring.advance_archived(seat, front);
    } else {
        ring.advance_durable(seat, front);
    }
}

// Takes a run of entries from a front on, and moves the front after them: how many there were. None where the part's turn was taken.
pub(crate) fn turn(
    ring: &Ring<PartState>,
    seat: &mut Seat<PartState>,
    place: u64,
    front: u64,
    run: &mut [Edge],
) -> Option<usize>
    requires at { IsAt ring.now.table.shared.table_id seat.old.table_id seat.old.me.0 }
    requires free { IsFree seat.old.me }
    requires worker { IsWorker place front seat.old.me.0 }
    requires small { front < 2 ^ 32 }
    requires shards { ring.now.shards ≡ 1 }
    ensures at { IsAt ring.now.table.shared.table_id seat.new.table_id seat.new.me.0 }
    ensures free { IfSome result (λ n. IsFree seat.new.me) }
    ensures worker { IfSome result (λ n. IsWorker place (front + n) seat.new.me.0) }
    ensures small { IfSome result (λ n. front + n < 2 ^ 32) }
    ensures within { IfSome result (λ n. n ≤ length run.old) × (length run.new ≡ length run.old) }
{
    let count = ring.take(seat, front, run);
    if count > 0 {
        let front = front + count as u64;
        if !bring_on(ring, seat, place, front) {
            return None;
        }
        move_front(ring, seat, place, front);
    }
    Some(count)
}

// A claim for an edge is held, both workers take a turn, and it is filled: what was released at first, and what came of it then.
fn fill_after_turns(
    ring: &Ring<PartState>,
    seat: &mut Seat<PartState>,
    archiver: &mut Seat<PartState>,
    flusher: &mut Seat<PartState>,
) -> Option<(u64, Result<u64, u64>)>
    requires may { MayPut 1 ring.now.table.shared.table_id seat.old.table_id seat.old.me.0 }
    requires archiver_at { IsAt ring.now.table.shared.table_id archiver.old.table_id archiver.old.me.0 }
    requires archiver { IsFree archiver.old.me × IsWorker 0 0 archiver.old.me.0 }
    requires flusher_at { IsAt ring.now.table.shared.table_id flusher.old.table_id flusher.old.me.0 }
    requires flusher { IsFree flusher.old.me × IsWorker 1 0 flusher.old.me.0 }
    requires shards { ring.now.shards ≡ 1 }
    requires vertices { ring.now.table.shared.key.layout.vertices ≡ 10000 }
{
    let claim = ring.claim(seat, &[edge_to(3)]);
    let (claim, released) = match ring.fill(seat, claim) {
        Fill::Done { position: _ } => return None,
        Fill::Held { claim, released } => (claim, released),
    };
    let mut run = [edge_to(0); 2];
    turn(ring, archiver, 0, 0, &mut run);
    turn(ring, flusher, 1, 0, &mut run);
    Some((released, fill_in_time(ring, seat, claim, 1)))
}

#[test]
fn a_fill_is_held_until_both_fronts_moved_on(rt: HostRuntime) -> Result<(), Fail> {
    let Opened {
        ring,
        seat: mut archiver,
    } = opened(rt.alloc(), 2, 3)?;
    let mut flusher = ring.split(&mut archiver, 0, 1);
    let mut seat = ring.split(&mut archiver, 3, 1);
    assert!(rt; put_one(&ring, &mut seat, 1) == Ok(0) && put_one(&ring, &mut seat, 2) == Ok(1));
    assert!(rt;
        fill_after_turns(&ring, &mut seat, &mut archiver, &mut flusher) == Some((0, Ok(2)))
    );
    Ok(())
}
