// An archiver, a flusher and a compactor take turns beside a session that puts, over a small ring: at the end all is where it belongs.
ghost use Rattle.std.specs.Prelude.{◌≡◌, ◌^◌, ◌<◌, ◌≤◌, false, true};
ghost use Rattle.go_rule.specs.Steps.{IsAt};
ghost use Rattle.go_workers.specs.Samples.{HasNothing, HasShare, MayArchive};

use crate::Turn;
use crate::fixture::{archive, compact, edge, flush, neighbours, opened, put};
use crate::tests::{ended, entries_in_file};
use go_disk::MemDisk;
use go_piece::Piece;
use go_ring::RingCalls;
use go_rule::{Closed, Opened, Ring, Seat};
use go_word::Edge;
use std::alloc::{AllocError, Global};
use std::sync::Wait;
use std::test::Fail;
use std::thread;
use std::thread::Threads;

// How many edges are put.
const ENTRIES: u64 = 3000;
// How often the shards are compacted beside that.
const COMPACTIONS: u64 = 300;

// The edge that is put at a position.
fn edge_at(at: u64) -> Edge
    ensures ids { (result.src < 8) × (result.dst < 8) }
{
    edge((at % 8) as u32, (at / 8 % 7) as u32)
}

// Puts all edges.
fn put_all(
    ring: &Ring<Piece<MemDisk>>,
    mut seat: Seat<Piece<MemDisk>>,
) -> (bool, Seat<Piece<MemDisk>>)
    requires at { IsAt ring.now.table.shared.table_id seat.table_id seat.me.0 }
    requires nothing { HasNothing seat.me }
    requires quota { 3000 ≤ seat.me.0.share.quota }
    requires vertices { ring.now.table.shared.key.layout.vertices ≡ 8 }
    ensures at { IsAt ring.now.table.shared.table_id result.1.table_id result.1.me.0 }
    ensures nothing { result.0 ≡ true → HasNothing result.1.me }
    ensures lot { result.1.me.0.share.lot ≡ seat.me.0.share.lot }
{
    let mut at = 0;
    while at < ENTRIES {
        if !put(ring, &mut seat, edge_at(at)) {
            return (false, seat);
        }
        at += 1;
    }
    (true, seat)
}

// Takes the archiver's turn until all edges are archived.
fn archive_all<R: Threads + Wait + Sync>(
    rt: &R,
    alloc: Global,
    ring: &Ring<Piece<MemDisk>>,
    mut seat: Seat<Piece<MemDisk>>,
) -> Seat<Piece<MemDisk>>
    requires at { IsAt ring.now.table.shared.table_id seat.table_id seat.me.0 }
    requires nothing { HasNothing seat.me }
    requires shards { ring.now.table.shared.key.layout.shards ≡ 2 }
    requires archiver { MayArchive 128 seat.me.0 }
    ensures at { IsAt ring.now.table.shared.table_id result.table_id result.me.0 }
    ensures nothing { HasNothing result.me }
    ensures archiver { MayArchive 128 result.me.0 }
    ensures same { (result.me.0.share ≡ seat.me.0.share) × (result.me.0.about ≡ seat.me.0.about) }
{
    let mut buf = [edge(0, 0); 128];
    let mut lists = Vec::new(alloc);
    let mut left = u64::MAX;
    while left > 0 {
        match archive(rt, alloc, ring, &mut seat, &mut buf, &mut lists) {
            Ok(Turn::Moved { front: ENTRIES }) => left = 0,
            _ => left -= 1,
        }
        thread::yield_now();
    }
    seat
}

// Takes the flusher's turn until all edges are durable.
fn flush_all<R: Wait>(
    rt: &R,
    ring: &Ring<Piece<MemDisk>>,
    mut seat: Seat<Piece<MemDisk>>,
) -> Seat<Piece<MemDisk>>
    requires at { IsAt ring.now.table.shared.table_id seat.table_id seat.me.0 }
    requires nothing { HasNothing seat.me }
    requires shards { ring.now.table.shared.key.layout.shards ≡ 2 }
    requires flusher { seat.me.0.core.flushes ≡ true }
    ensures at { IsAt ring.now.table.shared.table_id result.table_id result.me.0 }
    ensures nothing { HasNothing result.me }
    ensures share { result.me.0.share ≡ seat.me.0.share }
{
    let mut buf = [edge(0, 0); 128];
    let mut left = u64::MAX;
    while left > 0 {
        match flush(rt, ring, &mut seat, &mut buf) {
            Ok(Turn::Moved { front: ENTRIES }) => left = 0,
            _ => left -= 1,
        }
        thread::yield_now();
    }
    seat
}

// Compacts the shards so often.
fn compact_often<R: Wait>(
    rt: &R,
    ring: &Ring<Piece<MemDisk>>,
    mut seat: Seat<Piece<MemDisk>>,
) -> Seat<Piece<MemDisk>>
    requires at { IsAt ring.now.table.shared.table_id seat.table_id seat.me.0 }
    requires nothing { HasNothing seat.me }
    requires shards { ring.now.table.shared.key.layout.shards ≡ 2 }
    ensures at { IsAt ring.now.table.shared.table_id result.table_id result.me.0 }
    ensures nothing { HasNothing result.me }
    ensures share { result.me.0.share ≡ seat.me.0.share }
{
    let mut left = COMPACTIONS;
    while left > 0 {
        compact(rt, ring, &mut seat);
        thread::yield_now();
        left -= 1;
    }
    seat
}

// The session puts beside the archiver.
fn put_and_archive<R: Threads + Wait + Sync>(
    rt: &R,
    alloc: Global,
    ring: &Ring<Piece<MemDisk>>,
    session: Seat<Piece<MemDisk>>,
    archiver: Seat<Piece<MemDisk>>,
) -> ((bool, Seat<Piece<MemDisk>>), Seat<Piece<MemDisk>>)
    requires session_at { IsAt ring.now.table.shared.table_id session.table_id session.me.0 }
    requires session { HasNothing session.me }
    requires quota { 3000 ≤ session.me.0.share.quota }
    requires vertices { ring.now.table.shared.key.layout.vertices ≡ 8 }
    requires archiver_at { IsAt ring.now.table.shared.table_id archiver.table_id archiver.me.0 }
    requires archiver { HasNothing archiver.me × MayArchive 128 archiver.me.0 }
    requires shards { ring.now.table.shared.key.layout.shards ≡ 2 }
    ensures session_at { IsAt ring.now.table.shared.table_id result.0.1.table_id result.0.1.me.0 }
    ensures session { result.0.0 ≡ true → HasNothing result.0.1.me }
    ensures session_lot { result.0.1.me.0.share.lot ≡ session.me.0.share.lot }
    ensures archiver_at { IsAt ring.now.table.shared.table_id result.1.table_id result.1.me.0 }
    ensures archiver { HasNothing result.1.me × MayArchive 128 result.1.me.0 }
    ensures archiver_same { (result.1.me.0.share ≡ archiver.me.0.share) × (result.1.me.0.about ≡ archiver.me.0.about) }
{
    thread::join(
        rt,
        move || -> (bool, Seat<Piece<MemDisk>>)
            requires at { IsAt ring.now.table.shared.table_id session.table_id session.me.0 }
            requires nothing { HasNothing session.me }
            requires quota { 3000 ≤ session.me.0.share.quota }
            requires vertices { ring.now.table.shared.key.layout.vertices ≡ 8 }
        { put_all(ring, session) },
        move || -> Seat<Piece<MemDisk>>
            requires at { IsAt ring.now.table.shared.table_id archiver.table_id archiver.me.0 }
            requires nothing { HasNothing archiver.me }
            requires shards { ring.now.table.shared.key.layout.shards ≡ 2 }
            requires archiver { MayArchive 128 archiver.me.0 }
        { archive_all(rt, alloc, ring, archiver) },
    )
}

// The flusher beside a compactor.
fn flush_and_compact<R: Threads + Wait + Sync>(
    rt: &R,
    ring: &Ring<Piece<MemDisk>>,
    flusher: Seat<Piece<MemDisk>>,
    compactor: Seat<Piece<MemDisk>>,
) -> (Seat<Piece<MemDisk>>, Seat<Piece<MemDisk>>)
    requires flusher_at { IsAt ring.now.table.shared.table_id flusher.table_id flusher.me.0 }
    requires flusher { HasNothing flusher.me × (flusher.me.0.core.flushes ≡ true) }
    requires compactor_at { IsAt ring.now.table.shared.table_id compactor.table_id compactor.me.0 }
    requires compactor { HasNothing compactor.me }
    requires shards { ring.now.table.shared.key.layout.shards ≡ 2 }
    ensures flusher_at { IsAt ring.now.table.shared.table_id result.0.table_id result.0.me.0 }
    ensures flusher { HasNothing result.0.me }
    ensures flusher_lot { result.0.me.0.share ≡ flusher.me.0.share }
    ensures compactor_at { IsAt ring.now.table.shared.table_id result.1.table_id result.1.me.0 }
    ensures compactor { HasNothing result.1.me }
    ensures compactor_lot { result.1.me.0.share ≡ compactor.me.0.share }
{
    thread::join(
        rt,
        move || -> Seat<Piece<MemDisk>>
            requires at { IsAt ring.now.table.shared.table_id flusher.table_id flusher.me.0 }
            requires nothing { HasNothing flusher.me }
            requires shards { ring.now.table.shared.key.layout.shards ≡ 2 }
            requires flusher { flusher.me.0.core.flushes ≡ true }
        { flush_all(rt, ring, flusher) },
        move || -> Seat<Piece<MemDisk>>
            requires at { IsAt ring.now.table.shared.table_id compactor.table_id compactor.me.0 }
            requires nothing { HasNothing compactor.me }
            requires shards { ring.now.table.shared.key.layout.shards ≡ 2 }
        { compact_often(rt, ring, compactor) },
    )
}

// Whether each shard tells the neighbours that were put, in their order.
fn are_listed<R: Wait>(
    rt: &R,
    alloc: Global,
    ring: &Ring<Piece<MemDisk>>,
    seat: &mut Seat<Piece<MemDisk>>,
) -> bool
    requires at { IsAt ring.now.table.shared.table_id seat.old.table_id seat.old.me.0 }
    requires nothing { HasNothing seat.old.me }
    requires shards { ring.now.shards ≡ 2 }
    requires vertices { seat.old.me.0.about.vertices ≡ 8 }
    requires archiver { MayArchive 128 seat.old.me.0 }
    ensures at { IsAt ring.now.table.shared.table_id seat.new.table_id seat.new.me.0 }
    ensures nothing { HasNothing seat.new.me }
    ensures share { seat.new.me.0.share ≡ seat.old.me.0.share }
{
    let mut all = true;
    let mut v = 0;
    while v < 8 {
        let found = neighbours(rt, alloc, ring, seat, v);
        all = all && is_listed(found);
        v += 1;
    }
    all
}

// Whether these are the neighbours of a vertex.
fn is_listed(found: Result<Vec<u32>, AllocError>) -> bool {
    let Ok(found) = found else {
        return false;
    };
    let mut wanted = 0u32;
    for next in found.iter() {
        if *next != wanted % 7 {
            return false;
        }
        wanted = wanted.wrapping_add(1);
    }
    found.len() == 375
}

// All of that at once, by seats that are split off the archiver's: whether all edges were put and each shard tells them, and the ring's end.
fn run_all<R: Threads + Wait + Sync>(
    rt: &R,
    alloc: Global,
    ring: Ring<Piece<MemDisk>>,
    mut archiver: Seat<Piece<MemDisk>>,
) -> Option<(bool, Closed<Piece<MemDisk>>)>
    requires at { IsAt ring.table.shared.table_id archiver.table_id archiver.me.0 }
    requires nothing { HasNothing archiver.me }
    requires archiver { MayArchive 0 archiver.me.0 }
    requires flusher { archiver.me.0.core.flushes ≡ true }
    requires share { HasShare 3000 (2 ^ 32) archiver.me.0 }
    requires sizes { (ring.shards ≡ 2) × (ring.table.shared.key.layout.vertices ≡ 8) × (archiver.me.0.about.vertices ≡ 8) }
{
    let flusher = ring.split(&mut archiver, 0, 1);
    let compactor = ring.split(&mut archiver, 0, 1);
    let session = ring.split(&mut archiver, 3000, 1);
    let shared = &ring;
    let (((done, session), mut archiver), (flusher, compactor)) = thread::join(
        rt,
        move || -> ((bool, Seat<Piece<MemDisk>>), Seat<Piece<MemDisk>>)
            requires session_at { IsAt shared.now.table.shared.table_id session.table_id session.me.0 }
            requires session { HasNothing session.me }
            requires quota { 3000 ≤ session.me.0.share.quota }
            requires vertices { shared.now.table.shared.key.layout.vertices ≡ 8 }
            requires archiver_at { IsAt shared.now.table.shared.table_id archiver.table_id archiver.me.0 }
            requires archiver { HasNothing archiver.me × MayArchive 128 archiver.me.0 }
            requires shards { shared.now.table.shared.key.layout.shards ≡ 2 }
        { put_and_archive(rt, alloc, shared, session, archiver) },
        move || -> (Seat<Piece<MemDisk>>, Seat<Piece<MemDisk>>)
            requires flusher_at { IsAt shared.now.table.shared.table_id flusher.table_id flusher.me.0 }
            requires flusher { HasNothing flusher.me × (flusher.me.0.core.flushes ≡ true) }
            requires compactor_at { IsAt shared.now.table.shared.table_id compactor.table_id compactor.me.0 }
            requires compactor { HasNothing compactor.me }
            requires shards { shared.now.table.shared.key.layout.shards ≡ 2 }
        { flush_and_compact(rt, shared, flusher, compactor) },
    );
    if !done {
        return None;
    }
    let listed = are_listed(rt, alloc, &ring, &mut archiver);
    ring.join(&mut archiver, compactor);
    Some((listed, ended(ring, archiver, flusher, session)))
}

// Whether these are the edges that were put, in their order.
fn is_whole(edges: &[Edge]) -> bool {
    let mut at = 0u64;
    for edge in edges {
        if *edge != edge_at(at) {
            return false;
        }
        at = at.wrapping_add(1);
    }
    edges.len() == 3000
}

#[test]
fn workers_beside_a_session_move_all_that_it_puts(rt: HostRuntime) -> Result<(), Fail> {
    let alloc = rt.alloc();
    let disk = MemDisk::new(alloc, b"", 1000000)?;
    let Opened { ring, seat } = opened(alloc, disk, 128, ENTRIES)?;
    let Some((listed, closed)) = run_all(&rt, alloc, ring, seat) else {
        return Err(Fail::new("not put"));
    };
    assert!(rt; listed && closed.archived == ENTRIES && closed.durable == ENTRIES);
    let file = entries_in_file(alloc, closed)?;
    assert!(rt; is_whole(&file));
    Ok(())
}
