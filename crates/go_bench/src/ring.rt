// Threads put edges into a ring, in claims of so many, while one thread takes them and moves both fronts.
ghost use Rattle.std.specs.Prelude.{◌≡◌, ◌*◌, ◌-◌, ◌≤◌, ◌<◌, ◌^◌, IfOk, [], length, All};
ghost use Rattle.go_word.specs.Log.{IsWithin};
ghost use Rattle.go_word.specs.Word.{IsStorable};
ghost use Rattle.go_rule.specs.Steps.{IsAt};
ghost use Rattle.go_rule.specs.Samples.{IsFree};
ghost use Rattle.go_ring.specs.Samples.{IsFresh, IsWorker};
ghost use Rattle.go_bench.specs.Shares.{MayShare};

use crate::edges::{Shape, VERTICES, edges_from};
use crate::ring_puts::{EDGES, put_all, put_eight, put_four, put_two};
use crate::ring_worker::{Sums, work};
use go_core::{PartState, Pins};
use go_ring::{RingCalls, open};
use go_rule::{Layout, Opened, Ring, Seat};
use go_word::Edge;
use std::alloc::{AllocError, Global};
use std::rt::Clock;
use std::snapshot::Snapshot;
use std::thread::Threads;
use std::time::Instant;
use std::{io, thread};

// The slots of the ring.
const SLOTS: u64 = 65536;

// A thread's part of what is put where there are eight.
const EIGHTH: u32 = 8;

/// Puts about so many edges by 1, 2, 4 or 8 threads.
pub fn run<R: Threads + Clock + Print + Eprint + Sync>(
    rt: &R,
    alloc: Global,
    entries: u32,
    threads: u32,
    claim: u32,
) -> io::Result<()> {
    let each = entries / EIGHTH;
    let edges = edges_from(alloc, Shape::Spread, 0, EDGES)?;
    let Opened { ring, seat } = opened(alloc, u64::from(each) * 8)?;
    let begin = Instant::now(rt)?;
    let sums = put_and_work(rt, &ring, seat, &edges, each, threads, claim.clamp(1, 64));
    let took = begin.elapsed(rt)?;
    println!(rt;
        "{} entries, sums {} and {}",
        u64::from(each) * 8,
        sums.archived,
        sums.durable
    )?;
    eprintln!(rt; "{}", took.as_micros())
}

// A part at the beginning.
fn part(alloc: Global) -> PartState
    ensures { result ≡ record { front = 0; cut = 0; pins = [] } }
{
    PartState {
        front: 0,
        cut: 0,
        pins: Pins::none(alloc),
    }
}

// A ring with one shard and the file, from position 0 on.
pub(crate) fn opened(alloc: Global, quota: u64) -> Result<Opened<PartState>, AllocError>
    requires { quota < 2 ^ 32 - 1 }
    ensures at { IfOk result (λ o. IsAt o.ring.table.shared.table_id o.seat.table_id o.seat.me.0) }
    ensures sizes { IfOk result (λ o. (o.ring.table.shared.key.layout.shards ≡ 1) × (o.ring.table.shared.key.layout.vertices ≡ 65536)) }
    ensures shares { IfOk result (λ o. (o.seat.me.0.share.quota ≡ quota) × (o.seat.me.0.share.lot ≡ 2 ^ 32)) }
    ensures fresh { IfOk result (λ o. IsFresh o.seat.me) }
{
    let mut parts = Vec::new(alloc);
    parts.push(part(alloc))?;
    parts.push(part(alloc))?;
    let layout = Layout {
        vertices: VERTICES,
        ring: SLOTS,
        shards: 1,
    };
    match open(
        alloc,
        layout,
        0,
        quota,
        Snapshot::of(&Vec::new(alloc)),
        parts,
    ) {
        Ok(opened) => Ok(opened),
        Err(parts) => {
            drop(parts);
            Err(AllocError)
        }
    }
}

// So many threads put eight times as many edges as told between them.
fn put_by<R: Threads + Sync>(
    rt: &R,
    ring: &Ring<PartState>,
    seat: Seat<PartState>,
    edges: &[Edge],
    each: u32,
    threads: u32,
    claim: u32,
)
    requires may { MayShare (8 * each) 8 ring.now.table.shared.table_id seat.table_id seat.me.0 }
    requires edges { (length edges.now ≡ 65536) × All IsStorable edges.now × All (IsWithin 65536) edges.now }
    requires claim { (1 ≤ claim) × (claim ≤ 64) }
    requires vertices { ring.now.table.shared.key.layout.vertices ≡ 65536 }
    requires small { 8 * each < 2 ^ 32 }
{
    match threads {
        1 => put_all(ring, seat, edges, each * 8, claim),
        2 => put_two(rt, ring, seat, edges, each * 4, claim),
        4 => put_four(rt, ring, seat, edges, each * 2, claim),
        _ => put_eight(rt, ring, seat, edges, each, claim),
    }
}

// The threads that put, and the one that takes: the sums that it came to.
fn put_and_work<R: Threads + Sync>(
    rt: &R,
    ring: &Ring<PartState>,
    mut archiver: Seat<PartState>,
    edges: &[Edge],
    each: u32,
    threads: u32,
    claim: u32,
) -> Sums
    requires at { IsAt ring.now.table.shared.table_id archiver.table_id archiver.me.0 }
    requires fresh { IsFresh archiver.me }
    requires quota { (archiver.me.0.share.quota ≡ 8 * each) × (archiver.me.0.share.lot ≡ 2 ^ 32) }
    requires edges { (length edges.now ≡ 65536) × All IsStorable edges.now × All (IsWithin 65536) edges.now }
    requires claim { (1 ≤ claim) × (claim ≤ 64) }
    requires sizes { (ring.now.table.shared.key.layout.shards ≡ 1) × (ring.now.table.shared.key.layout.vertices ≡ 65536) }
    requires small { 8 * each < 2 ^ 32 }
{
    let entries = u64::from(each) * 8;
    let flusher = ring.split(&mut archiver, 0, 1);
    let seat = ring.split(&mut archiver, entries, 8);
    let ((), sums) = thread::join(
        rt,
        move ||
            requires may { MayShare (8 * each) 8 ring.now.table.shared.table_id seat.table_id seat.me.0 }
            requires edges { (length edges.now ≡ 65536) × All IsStorable edges.now × All (IsWithin 65536) edges.now }
            requires claim { (1 ≤ claim) × (claim ≤ 64) }
            requires vertices { ring.now.table.shared.key.layout.vertices ≡ 65536 }
            requires small { 8 * each < 2 ^ 32 }
        { put_by(rt, ring, seat, edges, each, threads, claim) },
        move || -> Sums
            requires archiver_at { IsAt ring.now.table.shared.table_id archiver.table_id archiver.me.0 }
            requires archiver { IsFree archiver.me × IsWorker 0 0 archiver.me.0 }
            requires flusher_at { IsAt ring.now.table.shared.table_id flusher.table_id flusher.me.0 }
            requires flusher { IsFree flusher.me × IsWorker 1 0 flusher.me.0 }
            requires shards { ring.now.table.shared.key.layout.shards ≡ 1 }
        { work(ring, archiver, flusher, entries) },
    );
    sums
}
