// Four threads put and two workers move the fronts, over a small ring: both take the same log, which interleaves what was put.
ghost use Rattle.std.specs.Prelude.{◌≡◌, ◌<◌, ◌^◌, false};
ghost use Rattle.go_rule.specs.Steps.{IsAt};
ghost use Rattle.go_rule.specs.Samples.{IsFree};
ghost use Rattle.go_ring.specs.Samples.{IsFresh, IsWorker, MayPut};

use crate::RingCalls;
use crate::tests::{opened, put};
use crate::worker_tests::turn;
use go_core::PartState;
use go_rule::{Opened, Ring, Seat};
use go_word::Edge;
use std::alloc::{AllocError, Global};
use std::test::Fail;
use std::thread;
use std::thread::Threads;

// How often each thread claims.
const ROUNDS: u32 = 2000;
// How many edges each thread puts, three in a claim.
const EACH: u32 = 6000;
// How many entries there are in all.
const ENTRIES: u64 = 24000;

// An edge of a thread, by its number.
fn edge(src: u32, number: u32) -> Edge
    ensures { result ≡ record { del = false; src = src; dst = number } }
{
    Edge {
        del: false,
        src,
        dst: number,
    }
}

// Puts all edges of a thread, in claims of three.
fn put_all(ring: &Ring<PartState>, mut seat: Seat<PartState>, src: u32) -> bool
    requires may { MayPut 6000 ring.now.table.shared.table_id seat.table_id seat.me.0 }
    requires src { src < 4 }
    requires sizes { ring.now.table.shared.key.layout.vertices ≡ 10000 }
{
    let mut round = 0;
    while round < ROUNDS {
        let number = 3 * round;
        let edges = [
            edge(src, number),
            edge(src, number + 1),
            edge(src, number + 2),
        ];
        if put(ring, &mut seat, &edges, u64::MAX).is_err() {
            return false;
        }
        round += 1;
    }
    true
}

// Takes all entries in their turn, and moves the front after each run of them.
fn work(
    alloc: Global,
    ring: &Ring<PartState>,
    mut seat: Seat<PartState>,
    place: u64,
) -> Result<Vec<Edge>, AllocError>
    requires at { IsAt ring.now.table.shared.table_id seat.table_id seat.me.0 }
    requires free { IsFree seat.me }
    requires worker { IsWorker place 0 seat.me.0 }
    requires shards { ring.now.table.shared.key.layout.shards ≡ 1 }
{
    let mut log = Vec::with_capacity(alloc, ENTRIES as usize)?;
    let mut run = [edge(0, 0); 8];
    let mut front = 0;
    let mut left = u64::MAX;
    while front < ENTRIES && left > 0 {
        let count = turn(ring, &mut seat, place, front, &mut run).ok_or(AllocError)?;
        log.extend_from_slice(&run[..count])?;
        front += count as u64;
        if count == 0 {
            thread::yield_now();
        }
        left -= 1;
    }
    Ok(log)
}

// Two threads put.
fn put_two<R: Threads + Sync>(
    rt: &R,
    ring: &Ring<PartState>,
    one: Seat<PartState>,
    two: Seat<PartState>,
    src: u32,
) -> bool
    requires one { MayPut 6000 ring.now.table.shared.table_id one.table_id one.me.0 }
    requires two { MayPut 6000 ring.now.table.shared.table_id two.table_id two.me.0 }
    requires src { src < 3 }
    requires sizes { ring.now.table.shared.key.layout.vertices ≡ 10000 }
{
    let (one, two) = thread::join(
        rt,
        move || -> bool { put_all(ring, one, src) },
        move || -> bool { put_all(ring, two, src + 1) },
    );
    one && two
}

// Four threads put.
fn put_four<R: Threads + Sync>(
    rt: &R,
    ring: &Ring<PartState>,
    one: Seat<PartState>,
    two: Seat<PartState>,
    three: Seat<PartState>,
    four: Seat<PartState>,
) -> bool
    requires one { MayPut 6000 ring.now.table.shared.table_id one.table_id one.me.0 }
    requires two { MayPut 6000 ring.now.table.shared.table_id two.table_id two.me.0 }
    requires three { MayPut 6000 ring.now.table.shared.table_id three.table_id three.me.0 }
    requires four { MayPut 6000 ring.now.table.shared.table_id four.table_id four.me.0 }
    requires sizes { ring.now.table.shared.key.layout.vertices ≡ 10000 }
{
    let (low, high) = thread::join(
        rt,
        move || -> bool
            requires one { MayPut 6000 ring.now.table.shared.table_id one.table_id one.me.0 }
            requires two { MayPut 6000 ring.now.table.shared.table_id two.table_id two.me.0 }
            requires sizes { ring.now.table.shared.key.layout.vertices ≡ 10000 }
        { put_two(rt, ring, one, two, 0) },
        move || -> bool
            requires three { MayPut 6000 ring.now.table.shared.table_id three.table_id three.me.0 }
            requires four { MayPut 6000 ring.now.table.shared.table_id four.table_id four.me.0 }
            requires sizes { ring.now.table.shared.key.layout.vertices ≡ 10000 }
        { put_two(rt, ring, three, four, 2) },
    );
    low && high
}

// Two workers take, the one for the shard and the other for the file: what each took.
fn work_both<R: Threads + Sync>(
    rt: &R,
    alloc: Global,
    ring: &Ring<PartState>,
    archiver: Seat<PartState>,
    flusher: Seat<PartState>,
) -> (Result<Vec<Edge>, AllocError>, Result<Vec<Edge>, AllocError>)
    requires archiver_at { IsAt ring.now.table.shared.table_id archiver.table_id archiver.me.0 }
    requires archiver { IsFree archiver.me × IsWorker 0 0 archiver.me.0 }
    requires flusher_at { IsAt ring.now.table.shared.table_id flusher.table_id flusher.me.0 }
    requires flusher { IsFree flusher.me × IsWorker 1 0 flusher.me.0 }
    requires shards { ring.now.table.shared.key.layout.shards ≡ 1 }
{
    thread::join(
        rt,
        move || -> Result<Vec<Edge>, AllocError> { work(alloc, ring, archiver, 0) },
        move || -> Result<Vec<Edge>, AllocError> { work(alloc, ring, flusher, 1) },
    )
}

// All six at once, by seats split off the first one: whether all was put, and what the workers took.
fn run_all<R: Threads + Sync>(
    rt: &R,
    alloc: Global,
    ring: &Ring<PartState>,
    mut archiver: Seat<PartState>,
) -> (
    bool,
    (Result<Vec<Edge>, AllocError>, Result<Vec<Edge>, AllocError>),
)
    requires at { IsAt ring.now.table.shared.table_id archiver.table_id archiver.me.0 }
    requires fresh { IsFresh archiver.me }
    requires quota { (archiver.me.0.share.quota ≡ 24000) × (archiver.me.0.share.lot ≡ 2 ^ 32) }
    requires sizes { (ring.now.table.shared.key.layout.shards ≡ 1) × (ring.now.table.shared.key.layout.vertices ≡ 10000) }
{
    let flusher = ring.split(&mut archiver, 0, 1);
    let one = ring.split(&mut archiver, 6000, 1);
    let two = ring.split(&mut archiver, 6000, 1);
    let three = ring.split(&mut archiver, 6000, 1);
    let four = ring.split(&mut archiver, 6000, 1);
    thread::join(
        rt,
        move || -> bool
            requires one { MayPut 6000 ring.now.table.shared.table_id one.table_id one.me.0 }
            requires two { MayPut 6000 ring.now.table.shared.table_id two.table_id two.me.0 }
            requires three { MayPut 6000 ring.now.table.shared.table_id three.table_id three.me.0 }
            requires four { MayPut 6000 ring.now.table.shared.table_id four.table_id four.me.0 }
            requires sizes { ring.now.table.shared.key.layout.vertices ≡ 10000 }
        { put_four(rt, ring, one, two, three, four) },
        move || -> (Result<Vec<Edge>, AllocError>, Result<Vec<Edge>, AllocError>)
            requires archiver_at { IsAt ring.now.table.shared.table_id archiver.table_id archiver.me.0 }
            requires archiver { IsFree archiver.me × IsWorker 0 0 archiver.me.0 }
            requires flusher_at { IsAt ring.now.table.shared.table_id flusher.table_id flusher.me.0 }
            requires flusher { IsFree flusher.me × IsWorker 1 0 flusher.me.0 }
            requires shards { ring.now.table.shared.key.layout.shards ≡ 1 }
        { work_both(rt, alloc, ring, archiver, flusher) },
    )
}

// Whether a log has each thread's edges, each once and in the order in which they were put, and nothing else.
fn interleaves(log: &[Edge]) -> bool {
    let mut next = [0u32; 4];
    for edge in log {
        let src = edge.src as usize;
        if edge.del || src >= next.len() || edge.dst != next[src] {
            return false;
        }
        next[src] = next[src].wrapping_add(1);
    }
    next == [EACH; 4]
}

#[test]
fn what_is_taken_interleaves_what_four_threads_put(rt: HostRuntime) -> Result<(), Fail> {
    let Opened { ring, seat } = opened(rt.alloc(), 16, ENTRIES)?;
    let (all_put, (archived, durable)) = run_all(&rt, rt.alloc(), &ring, seat);
    let (archived, durable) = (archived?, durable?);
    assert!(rt; all_put && interleaves(&archived) && archived.as_slice() == durable.as_slice());
    Ok(())
}
