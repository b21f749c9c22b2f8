// One thread takes the turns of a ring: what they tell, and what the shards and the file have then.
ghost use Rattle.std.specs.Prelude.{◌≡◌, ◌+◌, ◌^◌, true};
ghost use Rattle.go_rule.specs.Steps.{IsAt};
ghost use Rattle.go_workers.specs.Samples.{HasNothing, MayArchive};

use crate::fixture::{archive, compact, edge, flush, neighbours, opened, put_many};
use crate::{Turn, split};
use go_api::Stop;
use go_disk::MemDisk;
use go_durable::attach;
use go_piece::Piece;
use go_ring::RingCalls;
use go_rule::{Closed, Opened, Ring, Seat};
use go_word::Edge;
use std::alloc::{AllocError, Global};
use std::sync::Wait;
use std::test::Fail;
use std::thread::Threads;

// Joins all seats of a ring into its first one, and closes it.
pub(crate) fn ended(
    ring: Ring<Piece<MemDisk>>,
    mut archiver: Seat<Piece<MemDisk>>,
    flusher: Seat<Piece<MemDisk>>,
    session: Seat<Piece<MemDisk>>,
) -> Closed<Piece<MemDisk>>
    requires archiver_at { IsAt ring.table.shared.table_id archiver.table_id archiver.me.0 }
    requires archiver { HasNothing archiver.me }
    requires flusher_at { IsAt ring.table.shared.table_id flusher.table_id flusher.me.0 }
    requires flusher { HasNothing flusher.me }
    requires session_at { IsAt ring.table.shared.table_id session.table_id session.me.0 }
    requires session { HasNothing session.me }
    requires whole { archiver.me.0.share.lot + flusher.me.0.share.lot + session.me.0.share.lot ≡ 2 ^ 32 }
{
    ring.join(&mut archiver, flusher);
    ring.join(&mut archiver, session);
    ring.close(archiver)
}

// The entries in the file of a ring that was closed.
pub(crate) fn entries_in_file(
    alloc: Global,
    closed: Closed<Piece<MemDisk>>,
) -> Result<Vec<Edge>, Fail> {
    let mut parts = closed.parts;
    let Some(file) = parts.pop() else {
        return Err(Fail::new("no part"));
    };
    let Ok(journal) = file.into_journal() else {
        return Err(Fail::new("no file"));
    };
    match attach(alloc, journal.into_disk(), 8, 100_000) {
        Ok(found) => Ok(found.edges),
        Err(_) => Err(Fail::new("no log")),
    }
}

// How often each of two neighbours stands in a list, one behind the other.
pub(crate) fn are(list: &[u32], ones: usize, twos: usize) -> bool {
    list.len() == ones.saturating_add(twos)
        && list.iter().take(ones).all(|v| *v == 1)
        && list.iter().skip(ones).all(|v| *v == 2)
}

// Takes the archiver's turn twice, and the flusher's: whether the first one moved its front to there each time, and the second found nothing.
fn turns<R: Threads + Wait + Sync>(
    rt: &R,
    alloc: Global,
    ring: &Ring<Piece<MemDisk>>,
    archiver: &mut Seat<Piece<MemDisk>>,
    flusher: &mut Seat<Piece<MemDisk>>,
    front: u64,
) -> bool
    requires archiver_at { IsAt ring.now.table.shared.table_id archiver.old.table_id archiver.old.me.0 }
    requires archiver { HasNothing archiver.old.me × MayArchive 128 archiver.old.me.0 }
    requires flusher_at { IsAt ring.now.table.shared.table_id flusher.old.table_id flusher.old.me.0 }
    requires flusher { HasNothing flusher.old.me × (flusher.old.me.0.core.flushes ≡ true) }
    requires shards { ring.now.shards ≡ 2 }
    ensures archiver_at { IsAt ring.now.table.shared.table_id archiver.new.table_id archiver.new.me.0 }
    ensures archiver { HasNothing archiver.new.me × MayArchive 128 archiver.new.me.0 }
    ensures archiver_same { (archiver.new.me.0.share ≡ archiver.old.me.0.share) × (archiver.new.me.0.about ≡ archiver.old.me.0.about) }
    ensures flusher_at { IsAt ring.now.table.shared.table_id flusher.new.table_id flusher.new.me.0 }
    ensures flusher { HasNothing flusher.new.me × (flusher.new.me.0.core.flushes ≡ true) }
    ensures flusher_same { flusher.new.me.0.share ≡ flusher.old.me.0.share }
{
    let mut buf = [edge(0, 0); 128];
    let mut lists = Vec::new(alloc);
    let archived = archive(rt, alloc, ring, archiver, &mut buf, &mut lists);
    let again = archive(rt, alloc, ring, archiver, &mut buf, &mut lists);
    let flushed = flush(rt, ring, flusher, &mut buf);
    let idle = flush(rt, ring, flusher, &mut buf);
    archived.ok() == Some(Turn::Moved { front })
        && again.ok() == Some(Turn::Idle { front })
        && flushed == Ok(Turn::Moved { front })
        && idle == Ok(Turn::Idle { front })
}

#[test]
fn entries_leave_the_ring_by_turns(rt: HostRuntime) -> Result<(), Fail> {
    let alloc = rt.alloc();
    let disk = MemDisk::new(alloc, b"", 10000)?;
    let Opened {
        ring,
        seat: mut archiver,
    } = opened(alloc, disk, 128, 138)?;
    let mut flusher = ring.split(&mut archiver, 0, 1);
    let mut session = ring.split(&mut archiver, 138, 1);
    assert!(rt; put_many(&ring, &mut session, 128, edge(0, 1)));
    assert!(rt; turns(&rt, alloc, &ring, &mut archiver, &mut flusher, 128));
    assert!(rt; put_many(&ring, &mut session, 10, edge(0, 2)));
    assert!(rt; turns(&rt, alloc, &ring, &mut archiver, &mut flusher, 138));
    assert!(rt; are(&neighbours(&rt, alloc, &ring, &mut archiver, 0)?, 128, 10));
    assert!(rt; compact(&rt, &ring, &mut session));
    assert!(rt; are(&neighbours(&rt, alloc, &ring, &mut archiver, 0)?, 128, 10));
    let closed = ended(ring, archiver, flusher, session);
    assert!(rt; closed.archived == 138 && closed.durable == 138 && closed.head == 138);
    let file = entries_in_file(alloc, closed)?;
    assert!(rt; file.len() == 138 && file[127] == edge(0, 1) && file[128] == edge(0, 2));
    Ok(())
}

// Puts edges and takes the flusher's turn twice, over a disk whose call fails, and then the archiver's: whether the fault is raised and
// told both times, the durable front stays, and the archived one moves.
fn meets_the_fault<R: Threads + Wait + Sync>(
    rt: &R,
    alloc: Global,
    call: u64,
) -> Result<bool, AllocError> {
    let disk = MemDisk::failing(alloc, b"", &[call], 10000)?;
    let Opened {
        ring,
        seat: mut archiver,
    } = opened(alloc, disk, 128, 5)?;
    let mut flusher = ring.split(&mut archiver, 0, 1);
    let mut session = ring.split(&mut archiver, 5, 1);
    let mut buf = [edge(0, 0); 128];
    let mut lists = Vec::new(alloc);
    let put = put_many(&ring, &mut session, 5, edge(1, 3));
    let flushed = flush(rt, &ring, &mut flusher, &mut buf);
    let raised = ring.flag(&mut flusher);
    let again = flush(rt, &ring, &mut flusher, &mut buf);
    let durable = ring.durable(&mut flusher);
    let archived = archive(rt, alloc, &ring, &mut archiver, &mut buf, &mut lists);
    Ok(
        put && flushed == Err(Stop::Disk)
            && raised == Some(Stop::Disk)
            && again == Err(Stop::Disk)
            && durable == 0
            && archived.ok() == Some(Turn::Moved { front: 5 }),
    )
}

// Eight calls make the file, and four append a block.
#[test]
fn a_fault_of_the_disk_is_raised_at_each_of_its_calls(rt: HostRuntime) -> Result<(), Fail> {
    for call in 8..12 {
        assert!(rt; meets_the_fault(&rt, rt.alloc(), call)?);
    }
    Ok(())
}

// A run of the length of many, of edges that leave some vertices.
fn long_run(alloc: Global, len: u32) -> Result<Vec<Edge>, AllocError> {
    let mut run = Vec::with_capacity(alloc, len as usize)?;
    for i in 0..len {
        run.push(edge(i.wrapping_mul(2654435761) >> 20, i))?;
    }
    Ok(run)
}

#[test]
fn a_run_is_split_as_by_one_thread(rt: HostRuntime) -> Result<(), Fail> {
    let alloc = rt.alloc();
    let mut lists = Vec::new(alloc);
    for (len, shards) in [(70000, 4), (65535, 3), (65536, 3), (0, 5), (7, 1)] {
        let run = long_run(alloc, len)?;
        split(&rt, alloc, &run, shards, &mut lists)?;
        let wanted = go_shard::split(alloc, &run, shards)?;
        assert!(rt; lists.len() == wanted.len());
        for (found, list) in lists.iter().zip(wanted.iter()) {
            assert!(rt; found.as_slice() == list.as_slice());
        }
    }
    Ok(())
}
