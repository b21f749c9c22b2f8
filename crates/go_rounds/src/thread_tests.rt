// Views beside threads: a session puts, an archiver, a flusher and a compactor take their turns, and each view stays what it was.
ghost use Rattle.std.specs.Prelude.{◌≡◌, ◌≤◌, length, true};
ghost use Rattle.go_rule.specs.Steps.{IsAt};
ghost use Rattle.go_workers.specs.Samples.{HasNothing, MayArchive};

use crate::fixture::{archive, compact, flush, opened, put};
use crate::looks::{released, shows, taken};
use crate::schedule::entry_at;
use go_disk::MemDisk;
use go_piece::Piece;
use go_ring::RingCalls;
use go_rule::{Opened, Ring, Seat};
use go_word::Edge;
use go_workers::Turn;
use std::alloc::{AllocError, Global};
use std::sync::Wait;
use std::test::Fail;
use std::thread;
use std::thread::Threads;

// How many entries are put.
const ENTRIES: u64 = 3000;
// How often the shards are compacted beside that.
const COMPACTIONS: u64 = 300;
// How many views are taken, one after another.
const VIEWS: u64 = 400;
// How often a view lets the others go on before it is asked again.
const YIELDS: u64 = 20;

// Puts all entries: whether it did.
fn put_all(ring: &Ring<Piece<MemDisk>>, mut seat: Seat<Piece<MemDisk>>) -> bool
    requires at { IsAt ring.now.table.shared.table_id seat.table_id seat.me.0 }
    requires nothing { HasNothing seat.me }
    requires quota { 3000 ≤ seat.me.0.share.quota }
    requires vertices { ring.now.table.shared.key.layout.vertices ≡ 8 }
{
    let mut at = 0;
    while at < ENTRIES {
        if !put(ring, &mut seat, entry_at(at)) {
            return false;
        }
        at += 1;
    }
    true
}

// Takes the archiver's turn until all entries are archived.
fn archive_all<R: Threads + Wait + Sync>(
    rt: &R,
    alloc: Global,
    ring: &Ring<Piece<MemDisk>>,
    mut seat: Seat<Piece<MemDisk>>,
) -> bool
    requires at { IsAt ring.now.table.shared.table_id seat.table_id seat.me.0 }
    requires nothing { HasNothing seat.me }
    requires shards { ring.now.table.shared.key.layout.shards ≡ 2 }
    requires archiver { MayArchive 128 seat.me.0 }
{
    let mut buf = [entry_at(0); 128];
    let mut lists = Vec::new(alloc);
    let mut left = u64::MAX;
    while left > 0 {
        if let Ok(Turn::Moved { front: ENTRIES }) = archive(
            rt, alloc, ring, &mut seat, &mut buf, &mut lists,
        ) {
            return true;
        }
        thread::yield_now();
        left -= 1;
    }
    false
}

// Takes the flusher's turn until all entries are durable.
fn flush_all<R: Wait>(rt: &R, ring: &Ring<Piece<MemDisk>>, mut seat: Seat<Piece<MemDisk>>) -> bool
    requires at { IsAt ring.now.table.shared.table_id seat.table_id seat.me.0 }
    requires nothing { HasNothing seat.me }
    requires shards { ring.now.table.shared.key.layout.shards ≡ 2 }
    requires flusher { seat.me.0.core.flushes ≡ true }
{
    let mut buf = [entry_at(0); 128];
    let mut left = u64::MAX;
    while left > 0 {
        if let Ok(Turn::Moved { front: ENTRIES }) = flush(rt, ring, &mut seat, &mut buf) {
            return true;
        }
        thread::yield_now();
        left -= 1;
    }
    false
}

// Compacts the shards so often: whether there was memory.
fn compact_often<R: Wait>(
    rt: &R,
    ring: &Ring<Piece<MemDisk>>,
    mut seat: Seat<Piece<MemDisk>>,
) -> bool
    requires at { IsAt ring.now.table.shared.table_id seat.table_id seat.me.0 }
    requires shards { ring.now.table.shared.key.layout.shards ≡ 2 }
{
    let mut left = COMPACTIONS;
    let mut all = true;
    while left > 0 {
        all = compact(rt, ring, &mut seat) && all;
        thread::yield_now();
        left -= 1;
    }
    all
}

// Takes a view, asks it, lets the others go on, asks it again and releases it: whether it had the first entries of the log both times.
fn look<R: Wait>(
    rt: &R,
    alloc: Global,
    ring: &Ring<Piece<MemDisk>>,
    seat: &mut Seat<Piece<MemDisk>>,
    buf: &mut [u64],
    log: &[Edge],
) -> Result<bool, AllocError>
    requires at { IsAt ring.now.table.shared.table_id seat.old.table_id seat.old.me.0 }
    requires room { length buf.old ≡ ring.now.slots }
    requires shards { ring.now.shards ≡ 2 }
    requires vertices { seat.old.me.0.about.vertices ≡ 8 }
    ensures at { IsAt ring.now.table.shared.table_id seat.new.table_id seat.new.me.0 }
    ensures long { length buf.new ≡ length buf.old }
    ensures vertices { seat.new.me.0.about.vertices ≡ 8 }
{
    let Ok(view) = taken(rt, alloc, ring, seat, buf, 0) else {
        return Err(AllocError);
    };
    let entries = &log[..log.len().min(view.front() as usize)];
    let first = shows(rt, alloc, ring, seat, &view, entries)?;
    for _ in 0..YIELDS {
        thread::yield_now();
    }
    let second = shows(rt, alloc, ring, seat, &view, entries)?;
    released(rt, ring, seat, view);
    Ok(first && second)
}

// Does so with one view after another: whether all of them stayed what they were.
fn look_often<R: Wait>(
    rt: &R,
    alloc: Global,
    ring: &Ring<Piece<MemDisk>>,
    mut seat: Seat<Piece<MemDisk>>,
    log: &[Edge],
) -> bool
    requires at { IsAt ring.now.table.shared.table_id seat.table_id seat.me.0 }
    requires sizes { (ring.now.table.shared.key.layout.shards ≡ 2) × (ring.now.table.shared.key.layout.ring ≡ 128) }
    requires vertices { seat.me.0.about.vertices ≡ 8 }
{
    let mut buf = [0; 128];
    let mut left = VIEWS;
    while left > 0 {
        if look(rt, alloc, ring, &mut seat, &mut buf, log).ok() != Some(true) {
            return false;
        }
        left -= 1;
    }
    true
}

// The session puts beside the archiver.
fn put_and_archive<R: Threads + Wait + Sync>(
    rt: &R,
    alloc: Global,
    ring: &Ring<Piece<MemDisk>>,
    session: Seat<Piece<MemDisk>>,
    archiver: Seat<Piece<MemDisk>>,
) -> (bool, bool)
    requires session_at { IsAt ring.now.table.shared.table_id session.table_id session.me.0 }
    requires session { HasNothing session.me × (3000 ≤ session.me.0.share.quota) }
    requires archiver_at { IsAt ring.now.table.shared.table_id archiver.table_id archiver.me.0 }
    requires archiver { HasNothing archiver.me × MayArchive 128 archiver.me.0 }
    requires shards { ring.now.table.shared.key.layout.shards ≡ 2 }
    requires vertices { ring.now.table.shared.key.layout.vertices ≡ 8 }
{
    thread::join(
        rt,
        move || -> bool
            requires at { IsAt ring.now.table.shared.table_id session.table_id session.me.0 }
            requires session { HasNothing session.me × (3000 ≤ session.me.0.share.quota) }
            requires vertices { ring.now.table.shared.key.layout.vertices ≡ 8 }
        { put_all(ring, session) },
        move || -> bool
            requires at { IsAt ring.now.table.shared.table_id archiver.table_id archiver.me.0 }
            requires archiver { HasNothing archiver.me × MayArchive 128 archiver.me.0 }
            requires shards { ring.now.table.shared.key.layout.shards ≡ 2 }
        { archive_all(rt, alloc, ring, archiver) },
    )
}

// The flusher beside a compactor.
fn flush_and_compact<R: Threads + Wait + Sync>(
    rt: &R,
    ring: &Ring<Piece<MemDisk>>,
    flusher: Seat<Piece<MemDisk>>,
    compactor: Seat<Piece<MemDisk>>,
) -> (bool, bool)
    requires flusher_at { IsAt ring.now.table.shared.table_id flusher.table_id flusher.me.0 }
    requires flusher { HasNothing flusher.me × (flusher.me.0.core.flushes ≡ true) }
    requires compactor_at { IsAt ring.now.table.shared.table_id compactor.table_id compactor.me.0 }
    requires shards { ring.now.table.shared.key.layout.shards ≡ 2 }
{
    thread::join(
        rt,
        move || -> bool
            requires at { IsAt ring.now.table.shared.table_id flusher.table_id flusher.me.0 }
            requires flusher { HasNothing flusher.me × (flusher.me.0.core.flushes ≡ true) }
            requires shards { ring.now.table.shared.key.layout.shards ≡ 2 }
        { flush_all(rt, ring, flusher) },
        move || -> bool
            requires at { IsAt ring.now.table.shared.table_id compactor.table_id compactor.me.0 }
            requires shards { ring.now.table.shared.key.layout.shards ≡ 2 }
        { compact_often(rt, ring, compactor) },
    )
}

// The flusher and a compactor beside views.
fn serve_and_look<R: Threads + Wait + Sync>(
    rt: &R,
    alloc: Global,
    ring: &Ring<Piece<MemDisk>>,
    flusher: Seat<Piece<MemDisk>>,
    compactor: Seat<Piece<MemDisk>>,
    reader: Seat<Piece<MemDisk>>,
    log: &[Edge],
) -> ((bool, bool), bool)
    requires flusher_at { IsAt ring.now.table.shared.table_id flusher.table_id flusher.me.0 }
    requires flusher { HasNothing flusher.me × (flusher.me.0.core.flushes ≡ true) }
    requires compactor_at { IsAt ring.now.table.shared.table_id compactor.table_id compactor.me.0 }
    requires reader_at { IsAt ring.now.table.shared.table_id reader.table_id reader.me.0 }
    requires reader { reader.me.0.about.vertices ≡ 8 }
    requires sizes { (ring.now.table.shared.key.layout.shards ≡ 2) × (ring.now.table.shared.key.layout.ring ≡ 128) }
{
    thread::join(
        rt,
        move || -> (bool, bool)
            requires flusher_at { IsAt ring.now.table.shared.table_id flusher.table_id flusher.me.0 }
            requires flusher { HasNothing flusher.me × (flusher.me.0.core.flushes ≡ true) }
            requires compactor_at { IsAt ring.now.table.shared.table_id compactor.table_id compactor.me.0 }
            requires shards { ring.now.table.shared.key.layout.shards ≡ 2 }
        { flush_and_compact(rt, ring, flusher, compactor) },
        move || -> bool
            requires at { IsAt ring.now.table.shared.table_id reader.table_id reader.me.0 }
            requires vertices { reader.me.0.about.vertices ≡ 8 }
            requires sizes { (ring.now.table.shared.key.layout.shards ≡ 2) × (ring.now.table.shared.key.layout.ring ≡ 128) }
        { look_often(rt, alloc, ring, reader, log) },
    )
}

// All of that at once: whether each did its part.
fn run_all<R: Threads + Wait + Sync>(
    rt: &R,
    alloc: Global,
    ring: &Ring<Piece<MemDisk>>,
    session: Seat<Piece<MemDisk>>,
    archiver: Seat<Piece<MemDisk>>,
    flusher: Seat<Piece<MemDisk>>,
    compactor: Seat<Piece<MemDisk>>,
    reader: Seat<Piece<MemDisk>>,
    log: &[Edge],
) -> bool
    requires session_at { IsAt ring.now.table.shared.table_id session.table_id session.me.0 }
    requires session { HasNothing session.me × (3000 ≤ session.me.0.share.quota) }
    requires archiver_at { IsAt ring.now.table.shared.table_id archiver.table_id archiver.me.0 }
    requires archiver { HasNothing archiver.me × MayArchive 128 archiver.me.0 }
    requires flusher_at { IsAt ring.now.table.shared.table_id flusher.table_id flusher.me.0 }
    requires flusher { HasNothing flusher.me × (flusher.me.0.core.flushes ≡ true) }
    requires compactor_at { IsAt ring.now.table.shared.table_id compactor.table_id compactor.me.0 }
    requires reader_at { IsAt ring.now.table.shared.table_id reader.table_id reader.me.0 }
    requires reader { reader.me.0.about.vertices ≡ 8 }
    requires sizes { (ring.now.table.shared.key.layout.shards ≡ 2) × (ring.now.table.shared.key.layout.ring ≡ 128) }
    requires vertices { ring.now.table.shared.key.layout.vertices ≡ 8 }
{
    let ((put, archived), ((flushed, compacted), looked)) = thread::join(
        rt,
        move || -> (bool, bool)
            requires session_at { IsAt ring.now.table.shared.table_id session.table_id session.me.0 }
            requires session { HasNothing session.me × (3000 ≤ session.me.0.share.quota) }
            requires archiver_at { IsAt ring.now.table.shared.table_id archiver.table_id archiver.me.0 }
            requires archiver { HasNothing archiver.me × MayArchive 128 archiver.me.0 }
            requires shards { ring.now.table.shared.key.layout.shards ≡ 2 }
            requires vertices { ring.now.table.shared.key.layout.vertices ≡ 8 }
        { put_and_archive(rt, alloc, ring, session, archiver) },
        move || -> ((bool, bool), bool)
            requires flusher_at { IsAt ring.now.table.shared.table_id flusher.table_id flusher.me.0 }
            requires flusher { HasNothing flusher.me × (flusher.me.0.core.flushes ≡ true) }
            requires compactor_at { IsAt ring.now.table.shared.table_id compactor.table_id compactor.me.0 }
            requires reader_at { IsAt ring.now.table.shared.table_id reader.table_id reader.me.0 }
            requires reader { reader.me.0.about.vertices ≡ 8 }
            requires sizes { (ring.now.table.shared.key.layout.shards ≡ 2) × (ring.now.table.shared.key.layout.ring ≡ 128) }
        { serve_and_look(rt, alloc, ring, flusher, compactor, reader, log) },
    );
    put && archived && flushed && compacted && looked
}

#[test]
fn views_outlive_turns_of_workers(rt: HostRuntime) -> Result<(), Fail> {
    let alloc = rt.alloc();
    let disk = MemDisk::new(alloc, b"", 1000000)?;
    let Opened {
        ring,
        seat: mut archiver,
    } = opened(alloc, disk, 128, ENTRIES)?;
    let flusher = ring.split(&mut archiver, 0, 1);
    let compactor = ring.split(&mut archiver, 0, 1);
    let reader = ring.split(&mut archiver, 0, 1);
    let session = ring.split(&mut archiver, ENTRIES, 1);
    let mut log = Vec::new(alloc);
    for at in 0..ENTRIES {
        log.push(entry_at(at))?;
    }
    assert!(rt;
        run_all(
            &rt, alloc, &ring, session, archiver, flusher, compactor, reader, &log
        )
    );
    Ok(())
}
