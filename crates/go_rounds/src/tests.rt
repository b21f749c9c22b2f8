// One thread takes turns, compacts and takes views: a view has what it had.
ghost use Rattle.std.specs.Prelude.{◌≡◌, ◌<◌, ◌≤◌, true};
ghost use Rattle.go_word.specs.Log.{IsWithin};
ghost use Rattle.go_rule.specs.Steps.{IsAt};
ghost use Rattle.go_workers.specs.Samples.{HasNothing, MayArchive};

use crate::fixture::{archive, compact, flush, opened, put_many};
use crate::looks::{neighbours, taken};
use go_disk::MemDisk;
use go_piece::Piece;
use go_ring::RingCalls;
use go_rule::{Opened, Ring, Seat};
use go_word::Edge;
use go_workers::Turn;
use std::alloc::Global;
use std::sync::Wait;
use std::test::Fail;
use std::thread::Threads;

// An addition that leaves the vertex 0.
pub(crate) fn from_zero(dst: u32) -> Edge
    requires { dst < 8 }
    ensures { IsWithin 8 result }
{
    Edge {
        del: false,
        src: 0,
        dst,
    }
}

// How often each of two neighbours stands in a list, one behind the other.
fn are(list: &[u32], ones: usize, twos: usize) -> bool {
    list.len() == ones.saturating_add(twos)
        && list.iter().take(ones).all(|v| *v == 1)
        && list.iter().skip(ones).all(|v| *v == 2)
}

// Takes the archiver's turn twice, and the flusher's: whether the first one moved its front to there each time, and the second found nothing.
fn turns<R: Threads + Wait + Sync>(
    rt: &R,
    alloc: Global,
    ring: &Ring<Piece<MemDisk>>,
    archiver: &mut Seat<Piece<MemDisk>>,
    flusher: &mut Seat<Piece<MemDisk>>,
    front: u64,
) -> bool
    requires archiver_at { IsAt ring.now.table.shared.table_id archiver.old.table_id archiver.old.me.0 }
    requires archiver { HasNothing archiver.old.me × MayArchive 128 archiver.old.me.0 }
    requires flusher_at { IsAt ring.now.table.shared.table_id flusher.old.table_id flusher.old.me.0 }
    requires flusher { HasNothing flusher.old.me × (flusher.old.me.0.core.flushes ≡ true) }
    requires shards { ring.now.shards ≡ 2 }
    ensures archiver_at { IsAt ring.now.table.shared.table_id archiver.new.table_id archiver.new.me.0 }
    ensures archiver { HasNothing archiver.new.me × MayArchive 128 archiver.new.me.0 }
    ensures flusher_at { IsAt ring.now.table.shared.table_id flusher.new.table_id flusher.new.me.0 }
    ensures flusher { HasNothing flusher.new.me × (flusher.new.me.0.core.flushes ≡ true) }
{
    let mut buf = [from_zero(0); 128];
    let mut lists = Vec::new(alloc);
    let archived = archive(rt, alloc, ring, archiver, &mut buf, &mut lists);
    let again = archive(rt, alloc, ring, archiver, &mut buf, &mut lists);
    let flushed = flush(rt, ring, flusher, &mut buf);
    let idle = flush(rt, ring, flusher, &mut buf);
    archived.ok() == Some(Turn::Moved { front })
        && again.ok() == Some(Turn::Idle { front })
        && flushed == Ok(Turn::Moved { front })
        && idle == Ok(Turn::Idle { front })
}

#[test]
fn a_view_stays_while_its_entries_leave_the_ring(rt: HostRuntime) -> Result<(), Fail> {
    let alloc = rt.alloc();
    let disk = MemDisk::new(alloc, b"", 10000)?;
    let Opened {
        ring,
        seat: mut archiver,
    } = opened(alloc, disk, 128, 198)?;
    let mut flusher = ring.split(&mut archiver, 0, 1);
    let mut reader = ring.split(&mut archiver, 0, 1);
    let mut session = ring.split(&mut archiver, 198, 1);
    let mut buf = [0; 128];
    let mut found = Vec::new(alloc);
    assert!(rt; put_many(&ring, &mut session, 128, from_zero(1)));
    assert!(rt; turns(&rt, alloc, &ring, &mut archiver, &mut flusher, 128));
    assert!(rt; put_many(&ring, &mut session, 10, from_zero(2)));
    let Ok(view) = taken(&rt, alloc, &ring, &mut reader, &mut buf, 138) else {
        return Err(Fail::new("no view"));
    };
    assert!(rt; view.front() == 138 && view.raw_degree(0) == 138);
    assert!(rt; put_many(&ring, &mut session, 60, from_zero(3)));
    assert!(rt; turns(&rt, alloc, &ring, &mut archiver, &mut flusher, 198));
    assert!(rt; compact(&rt, &ring, &mut session));
    neighbours(&rt, alloc, &ring, &mut reader, &view, 0, &mut found)?;
    assert!(rt; are(&found, 128, 10) && view.raw_degree(0) == 138);
    Ok(())
}
