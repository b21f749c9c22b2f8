// One thread takes the entries of a ring by two seats, the one for the shard and the other for the file, and moves both fronts.
ghost use Rattle.std.specs.Prelude.{◌≡◌, ◌+◌, ◌≤◌, ◌<◌, ◌^◌, true, length, IfSome};
ghost use Rattle.go_rule.specs.Steps.{IsAt};
ghost use Rattle.go_rule.specs.Samples.{IsFree};
ghost use Rattle.go_ring.specs.Samples.{IsWorker, HasBrought};

use go_core::PartState;
use go_ring::RingCalls;
use go_rule::{Ring, Seat, give_turn, take_turn};
use go_word::Edge;
use std::thread;

// How many entries are taken at most at a time.
const RUN: usize = 1024;

// What stands in a run before it was read.
const NO_EDGE: Edge = Edge {
    del: false,
    src: 0,
    dst: 0,
};

// Brings a part on to what its worker took, where its turn is free.
fn bring_on(ring: &Ring<PartState>, seat: &mut Seat<PartState>, place: u64, front: u64) -> bool
    requires at { IsAt ring.now.table.shared.table_id seat.old.table_id seat.old.me.0 }
    requires free { IsFree seat.old.me }
    requires worker { IsWorker place front seat.old.me.0 }
    requires shards { ring.now.shards ≡ 1 }
    ensures at { IsAt ring.now.table.shared.table_id seat.new.table_id seat.new.me.0 }
    ensures free { result ≡ true → IsFree seat.new.me }
    ensures worker { result ≡ true → IsWorker place front seat.new.me.0 }
    ensures brought { result ≡ true → HasBrought place front seat.new.me.0 }
{
    if take_turn(ring, seat, place) != 0 {
        return false;
    }
    let Some(mut part) = ring.table.shared.exchange(seat, place as usize, None) else {
        unreachable!()
    };
    part.front = part.front.max(front);
    let left = ring.table.shared.exchange(seat, place as usize, Some(part));
    drop(left);
    give_turn(ring, seat, place);
    true
}

// Moves the front of a worker to where its part was brought: the archived one of the shard, and the durable one of the file.
fn move_front(ring: &Ring<PartState>, seat: &mut Seat<PartState>, place: u64, front: u64)
    requires at { IsAt ring.now.table.shared.table_id seat.old.table_id seat.old.me.0 }
    requires free { IsFree seat.old.me }
    requires worker { IsWorker place front seat.old.me.0 }
    requires brought { HasBrought place front seat.old.me.0 }
    requires shards { ring.now.shards ≡ 1 }
    ensures at { IsAt ring.now.table.shared.table_id seat.new.table_id seat.new.me.0 }
    ensures free { IsFree seat.new.me }
    ensures worker { IsWorker place front seat.new.me.0 }
{
    if place == 0 {
        ring.advance_archived(seat, front);
    } else {
        ring.advance_durable(seat, front);
    }
}

// Takes a run of entries from a front on, and moves the front after them: how many there were. None where the part's turn was taken.
fn turn(
    ring: &Ring<PartState>,
    seat: &mut Seat<PartState>,
    place: u64,
    front: u64,
    run: &mut [Edge],
) -> Option<usize>
    requires at { IsAt ring.now.table.shared.table_id seat.old.table_id seat.old.me.0 }
    requires free { IsFree seat.old.me }
    requires worker { IsWorker place front seat.old.me.0 }
    requires small { front < 2 ^ 32 }
    requires shards { ring.now.shards ≡ 1 }
    ensures at { IsAt ring.now.table.shared.table_id seat.new.table_id seat.new.me.0 }
    ensures free { IfSome result (λ n. IsFree seat.new.me) }
    ensures worker { IfSome result (λ n. IsWorker place (front + n) seat.new.me.0) }
    ensures small { IfSome result (λ n. front + n < 2 ^ 32) }
    ensures within { IfSome result (λ n. n ≤ length run.old) × (length run.new ≡ length run.old) }
{
    let count = ring.take(seat, front, run);
    if count > 0 {
        let front = front + count as u64;
        if !bring_on(ring, seat, place, front) {
            return None;
        }
        move_front(ring, seat, place, front);
    }
    Some(count)
}

/// The sums of the destinations of what was taken for the shard, and of what was taken for the file.
#[derive(Clone, Copy)]
pub struct Sums {
    /// For the shard.
    pub archived: u64,
    /// For the file.
    pub durable: u64,
}

/// Takes so many entries twice, and moves the archived front after the first time and the durable one after the second.
pub fn work(
    ring: &Ring<PartState>,
    mut archiver: Seat<PartState>,
    mut flusher: Seat<PartState>,
    entries: u64,
) -> Sums
    requires archiver_at { IsAt ring.now.table.shared.table_id archiver.table_id archiver.me.0 }
    requires archiver { IsFree archiver.me × IsWorker 0 0 archiver.me.0 }
    requires flusher_at { IsAt ring.now.table.shared.table_id flusher.table_id flusher.me.0 }
    requires flusher { IsFree flusher.me × IsWorker 1 0 flusher.me.0 }
    requires shards { ring.now.table.shared.key.layout.shards ≡ 1 }
{
    let mut run = [NO_EDGE; RUN];
    let mut sums = Sums {
        archived: 0,
        durable: 0,
    };
    let mut archived = 0;
    let mut durable = 0;
    let mut left = u64::MAX;
    while (archived < entries || durable < entries) && left > 0 {
        let Some(count) = turn(ring, &mut archiver, 0, archived, &mut run) else {
            break;
        };
        archived += count as u64;
        sums.archived = sums.archived.wrapping_add(destinations(&run[..count]));
        let Some(count) = turn(ring, &mut flusher, 1, durable, &mut run) else {
            break;
        };
        durable += count as u64;
        sums.durable = sums.durable.wrapping_add(destinations(&run[..count]));
        if count < RUN {
            thread::yield_now();
        }
        left -= 1;
    }
    sums
}

// The sum of the destinations of edges.
fn destinations(edges: &[Edge]) -> u64 {
    let mut sum = 0u64;
    for edge in edges {
        sum = sum.wrapping_add(u64::from(edge.dst));
    }
    sum
}
