// Journals on disks in memory: full blocks, a disk that fails, and the end.
ghost use Rattle.std.specs.Prelude.{◌≡◌, ◌<◌, ◌≤◌, All, length, IfOk};
ghost use Rattle.go_word.specs.Log.{IsWithin};

use crate::file_tests::copies;
use crate::fixture::{EDGE, SECOND, VERTICES, bytes_of, found};
use crate::{Finished, Flushed, Journal, Opened, attach};
use go_api::Stop;
use go_disk::MemDisk;
use go_word::Edge;
use std::alloc::Global;
use std::test::Fail;

// Appends the entries to a journal on this disk, and then ends it with these.
fn flush_and_finish(
    alloc: Global,
    disk: MemDisk,
    edges: &[Edge],
    last: &[Edge],
) -> Result<(Option<Stop>, Finished<MemDisk>), Fail>
    requires few { length edges.now ≤ 70_000 }
    requires within { All (IsWithin 8) edges.now }
    requires last_few { length last.now ≤ 70_000 }
    requires last_within { All (IsWithin 8) last.now }
{
    let Ok(Opened { log, edges: _ }) = attach(alloc, disk, VERTICES, 100_000) else {
        return Err(Fail::new("not attached"));
    };
    if log.front() > 100_000 || log.vertices() != VERTICES {
        return Err(Fail::new("another log"));
    }
    let Flushed { journal, stop } = Journal::Sound { log }.flush(edges);
    match journal {
        Journal::Sound { log } => {
            if log.front() > 1_000_000 || log.vertices() != VERTICES {
                return Err(Fail::new("another log"));
            }
            Ok((stop, Journal::Sound { log }.finish(last)))
        }
        spent => Ok((stop, spent.finish(last))),
    }
}

#[test]
fn entries_are_appended_in_full_blocks(rt: HostRuntime) -> Result<(), Fail> {
    let edges = copies(rt.alloc(), 65_537)?;
    let disk = MemDisk::new(rt.alloc(), b"", 1_000_000)?;
    let (stop, finished) = flush_and_finish(rt.alloc(), disk, &edges, &[SECOND])?;
    assert_eq!(rt;
        (stop, finished.stop, finished.durable),
        (None, None, 65_538)
    );
    let bytes = bytes_of(rt.alloc(), &finished.disk)?;
    assert_eq!(rt; bytes.len(), 16 + (5 + 8 * 65_536) + (5 + 8) + (5 + 8));
    Ok(())
}

#[test]
fn journal_of_a_disk_that_failed_takes_no_more(rt: HostRuntime) -> Result<(), Fail> {
    for (call, durable) in [(8, 0), (11, 0), (12, 1), (15, 1)] {
        let disk = MemDisk::failing(rt.alloc(), b"", &[call], 1000)?;
        let (stop, finished) = flush_and_finish(rt.alloc(), disk, &[EDGE], &[SECOND])?;
        assert_eq!(rt; stop.is_some(), call < 12);
        assert_eq!(rt;
            (finished.stop, finished.durable),
            (Some(Stop::Disk), durable)
        );
    }
    Ok(())
}

#[test]
fn log_one_entry_over_the_room_is_refused(rt: HostRuntime) -> Result<(), Fail> {
    let disk = MemDisk::new(rt.alloc(), b"", 1000)?;
    let (_, finished) = flush_and_finish(rt.alloc(), disk, &[EDGE], &[SECOND])?;
    let bytes = bytes_of(rt.alloc(), &finished.disk)?;
    for (room, want) in [(0, None), (1, None), (2, Some(2)), (3, Some(2))] {
        let edges = found(rt.alloc(), &bytes, room)?;
        assert_eq!(rt; edges.ok().map(|edges| edges.len()), want, "room {room}");
    }
    Ok(())
}
