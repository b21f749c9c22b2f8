// One thread takes views at each step of a schedule, in which entries come, leave the ring, and shards are compacted.
ghost use Rattle.std.specs.Prelude.{◌≡◌, IfOk, true};
ghost use Rattle.go_word.specs.Log.{IsWithin};
ghost use Rattle.go_rule.specs.Steps.{IsAt};
ghost use Rattle.go_views.specs.Views.{IsView};
ghost use Rattle.go_workers.specs.Samples.{HasNothing, MayArchive};

use crate::fixture::{archive, compact, flush, opened, put};
use crate::looks::{released, shows, taken};
use go_disk::MemDisk;
use go_piece::Piece;
use go_ring::RingCalls;
use go_rule::{Opened, Ring, Seat};
use go_views::LiveView;
use go_word::Edge;
use std::alloc::Global;
use std::sync::Wait;
use std::test::Fail;
use std::thread::Threads;

// How many steps there are, each with an entry.
const STEPS: u64 = 60;

// The entry of a step: of each five one is a deletion.
pub(crate) fn entry_at(step: u64) -> Edge
    ensures { IsWithin 8 result }
{
    Edge {
        del: step % 5 == 4,
        src: (step % 4) as u32,
        dst: (step / 4 % 3) as u32,
    }
}

// What the archiver, the flusher and a compactor do at a step: each of them its part at each fourth one.
pub(crate) fn work<R: Threads + Wait + Sync>(
    rt: &R,
    alloc: Global,
    ring: &Ring<Piece<MemDisk>>,
    archiver: &mut Seat<Piece<MemDisk>>,
    flusher: &mut Seat<Piece<MemDisk>>,
    compactor: &mut Seat<Piece<MemDisk>>,
    step: u64,
) -> bool
    requires archiver_at { IsAt ring.now.table.shared.table_id archiver.old.table_id archiver.old.me.0 }
    requires archiver { HasNothing archiver.old.me × MayArchive 128 archiver.old.me.0 }
    requires flusher_at { IsAt ring.now.table.shared.table_id flusher.old.table_id flusher.old.me.0 }
    requires flusher { HasNothing flusher.old.me × (flusher.old.me.0.core.flushes ≡ true) }
    requires compactor_at { IsAt ring.now.table.shared.table_id compactor.old.table_id compactor.old.me.0 }
    requires shards { ring.now.shards ≡ 2 }
    ensures archiver_at { IsAt ring.now.table.shared.table_id archiver.new.table_id archiver.new.me.0 }
    ensures archiver { HasNothing archiver.new.me × MayArchive 128 archiver.new.me.0 }
    ensures flusher_at { IsAt ring.now.table.shared.table_id flusher.new.table_id flusher.new.me.0 }
    ensures flusher { HasNothing flusher.new.me × (flusher.new.me.0.core.flushes ≡ true) }
    ensures compactor_at { IsAt ring.now.table.shared.table_id compactor.new.table_id compactor.new.me.0 }
{
    let mut buf = [entry_at(0); 128];
    let mut lists = Vec::new(alloc);
    match step % 4 {
        1 => archive(rt, alloc, ring, archiver, &mut buf, &mut lists).is_ok(),
        2 => flush(rt, ring, flusher, &mut buf).is_ok(),
        3 => compact(rt, ring, compactor),
        _ => true,
    }
}

// Takes a view of a log of some entries, and asks it and the one that was held, of all but the last; that is released.
fn next_view<R: Wait>(
    rt: &R,
    alloc: Global,
    ring: &Ring<Piece<MemDisk>>,
    seat: &mut Seat<Piece<MemDisk>>,
    held: LiveView,
    log: &[Edge],
) -> Result<LiveView, Fail>
    requires at { IsAt ring.now.table.shared.table_id seat.old.table_id seat.old.me.0 }
    requires sizes { (ring.now.shards ≡ 2) × (ring.now.slots ≡ 16) }
    requires vertices { seat.old.me.0.about.vertices ≡ 8 }
    requires held { IsView 2 held seat.old.me.0 }
    ensures at { IsAt ring.now.table.shared.table_id seat.new.table_id seat.new.me.0 }
    ensures vertices { seat.new.me.0.about.vertices ≡ 8 }
    ensures next { IfOk result (λ view. IsView 2 view seat.new.me.0) }
{
    let mut buf = [0; 16];
    let Ok(next) = taken(rt, alloc, ring, seat, &mut buf, log.len() as u64) else {
        return Err(Fail::new("no view"));
    };
    let before = &log[..log.len().saturating_sub(1)];
    if !shows(rt, alloc, ring, seat, &next, log)? {
        return Err(Fail::new("another log"));
    }
    if !shows(rt, alloc, ring, seat, &held, before)? {
        return Err(Fail::new("the view has changed"));
    }
    released(rt, ring, seat, held);
    Ok(next)
}

#[test]
fn a_view_at_each_step_of_a_schedule(rt: HostRuntime) -> Result<(), Fail> {
    let alloc = rt.alloc();
    let disk = MemDisk::new(alloc, b"", 10000)?;
    let Opened {
        ring,
        seat: mut archiver,
    } = opened(alloc, disk, 16, STEPS)?;
    let mut flusher = ring.split(&mut archiver, 0, 1);
    let mut compactor = ring.split(&mut archiver, 0, 1);
    let mut reader = ring.split(&mut archiver, 0, 1);
    let mut session = ring.split(&mut archiver, STEPS, 1);
    let mut buf = [0; 16];
    let mut log = Vec::new(alloc);
    let Ok(mut held) = taken(&rt, alloc, &ring, &mut reader, &mut buf, 0) else {
        return Err(Fail::new("no view"));
    };
    for step in 0..STEPS {
        assert!(rt; put(&ring, &mut session, entry_at(step)));
        log.push(entry_at(step))?;
        assert!(rt;
            work(
                &rt,
                alloc,
                &ring,
                &mut archiver,
                &mut flusher,
                &mut compactor,
                step
            )
        );
        held = next_view(&rt, alloc, &ring, &mut reader, held, &log)?;
    }
    assert!(rt; held.front() == STEPS);
    Ok(())
}
