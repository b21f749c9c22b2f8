// Turns and compactions with memory refused: fronts and shards are as they were, and the next one does all. Each has a twin that hands the
// refusal on, so that tools/refuse_calls.sh, which refuses one allocation after another, knows which of them were the call's own.
ghost use Rattle.std.specs.Prelude.{◌≡◌, IfOk};
ghost use Rattle.go_rule.specs.Steps.{IsAt};
ghost use Rattle.go_workers.specs.Samples.{HasNothing, MayArchive};

use crate::fixture::{archive, compact, edge, neighbours, opened, put_many};
use crate::tests::are;
use crate::{Turn, compact_all};
use go_disk::MemDisk;
use go_piece::Piece;
use go_ring::RingCalls;
use go_rule::{Opened, Ring, Seat};
use std::alloc::{AllocError, Global};
use std::test::Fail;

// How many entries are put.
const ENTRIES: u64 = 20;

// A ring with some entries, the seat of its archiver, and the one that put them.
struct Begun {
    ring: Ring<Piece<MemDisk>>,
    archiver: Seat<Piece<MemDisk>>,
    session: Seat<Piece<MemDisk>>,
}

fn with_entries(alloc: Global) -> Result<Begun, AllocError>
    ensures shards { IfOk result (λ b. b.ring.shards ≡ 2) }
    ensures archiver_at { IfOk result (λ b. IsAt b.ring.table.shared.table_id b.archiver.table_id b.archiver.me.0) }
    ensures archiver { IfOk result (λ b. HasNothing b.archiver.me × MayArchive 128 b.archiver.me.0) }
    ensures vertices { IfOk result (λ b. b.archiver.me.0.about.vertices ≡ 8) }
    ensures session_at { IfOk result (λ b. IsAt b.ring.table.shared.table_id b.session.table_id b.session.me.0) }
    ensures session { IfOk result (λ b. HasNothing b.session.me) }
{
    let disk = MemDisk::new(alloc, b"", 10000)?;
    let Opened {
        ring,
        seat: mut archiver,
    } = opened(alloc, disk, 128, ENTRIES)?;
    let mut session = ring.split(&mut archiver, ENTRIES, 1);
    if !put_many(&ring, &mut session, ENTRIES, edge(0, 1)) {
        return Err(AllocError);
    }
    Ok(Begun {
        ring,
        archiver,
        session,
    })
}

#[test]
fn a_refused_turn_of_the_archiver_changes_nothing(rt: HostRuntime) -> Result<(), Fail> {
    let alloc = rt.alloc();
    let Begun {
        ring,
        mut archiver,
        session: _,
    } = with_entries(alloc)?;
    let mut buf = [edge(0, 0); 128];
    let mut lists = Vec::new(alloc);
    let mut turn = archive(&rt, alloc, &ring, &mut archiver, &mut buf, &mut lists);
    if turn.is_err() {
        turn = archive(&rt, alloc, &ring, &mut archiver, &mut buf, &mut lists);
    }
    assert!(rt; turn.ok() == Some(Turn::Moved { front: ENTRIES }));
    if let Ok(list) = neighbours(&rt, alloc, &ring, &mut archiver, 0) {
        assert!(rt; are(&list, 20, 0));
    }
    Ok(())
}

#[test]
fn a_turn_of_the_archiver_is_taken_where_there_is_memory(rt: HostRuntime) -> Result<(), Fail> {
    let alloc = rt.alloc();
    let Begun {
        ring,
        mut archiver,
        session: _,
    } = with_entries(alloc)?;
    let mut buf = [edge(0, 0); 128];
    let mut lists = Vec::new(alloc);
    let turn = archive(&rt, alloc, &ring, &mut archiver, &mut buf, &mut lists)?;
    assert!(rt; turn == Turn::Moved { front: ENTRIES });
    Ok(())
}

#[test]
fn a_refused_compaction_of_all_shards_changes_nothing(rt: HostRuntime) -> Result<(), Fail> {
    let alloc = rt.alloc();
    let Begun {
        ring,
        mut archiver,
        mut session,
    } = with_entries(alloc)?;
    let mut buf = [edge(0, 0); 128];
    let mut lists = Vec::new(alloc);
    archive(&rt, alloc, &ring, &mut archiver, &mut buf, &mut lists)?;
    let done = compact(&rt, &ring, &mut session);
    if let Ok(list) = neighbours(&rt, alloc, &ring, &mut archiver, 0) {
        assert!(rt; are(&list, 20, 0));
    }
    assert!(rt; done || compact(&rt, &ring, &mut session));
    Ok(())
}

#[test]
fn all_shards_are_compacted_where_there_is_memory(rt: HostRuntime) -> Result<(), Fail> {
    let alloc = rt.alloc();
    let Begun {
        ring,
        mut archiver,
        mut session,
    } = with_entries(alloc)?;
    let mut buf = [edge(0, 0); 128];
    let mut lists = Vec::new(alloc);
    archive(&rt, alloc, &ring, &mut archiver, &mut buf, &mut lists)?;
    compact_all(&rt, &ring, &mut session)?;
    Ok(())
}
