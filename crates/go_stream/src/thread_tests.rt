// One thread streams while another puts: what the stream gave is the log.
ghost use Rattle.std.specs.Prelude.{◌≡◌, ◌<◌, ◌≤◌, length};
ghost use Rattle.go_word.specs.declared.word.TheConstants.{ID_LIMIT};
ghost use Rattle.go_rule.specs.Steps.{IsAt};

use crate::LiveStream;
use crate::fixture::{Begun, are_from, file_of, next, opened};
use crate::tests::put_all;
use go_disk::MemDisk;
use go_piece::Piece;
use go_ring::RingCalls;
use go_rule::{Ring, Seat};
use go_word::Edge;
use std::alloc::{AllocError, Global};
use std::sync::Wait;
use std::test::Fail;
use std::thread;
use std::thread::Threads;

// How many entries are in the file as the ring is made.
const OLD: u64 = 5;
// How many there are in the end.
const ENTRIES: u64 = 4005;

// Streams from the beginning, a few entries at a time, and waits for each next one until all are there: what the stream gave.
fn stream_all<R: Wait>(
    rt: &R,
    alloc: Global,
    ring: &Ring<Piece<MemDisk>>,
    mut seat: Seat<Piece<MemDisk>>,
) -> Result<Vec<Edge>, AllocError>
    requires at { IsAt ring.now.table.shared.table_id seat.table_id seat.me.0 }
    requires ids { seat.me.0.about.vertices ≤ ID_LIMIT }
    requires slots { ring.now.table.shared.key.layout.ring ≡ 4096 }
    requires shards { ring.now.table.shared.key.layout.shards ≡ 1 }
{
    let mut stream = LiveStream::start(0);
    let mut buf = vec![in alloc; 0; 4096]?;
    let mut out = Vec::new(alloc);
    let mut all = Vec::new(alloc);
    let mut left = ENTRIES;
    while stream.cursor() < ENTRIES && left > 0 {
        let at = stream.cursor();
        let span = next(
            rt,
            ring,
            &mut seat,
            &mut stream,
            &mut buf,
            7,
            at + 1,
            &mut out,
        );
        if span.is_err() {
            return Err(AllocError);
        }
        all.extend_from_slice(&out)?;
        left -= 1;
    }
    Ok(all)
}

// Both at once.
fn put_and_stream<R: Threads + Wait + Sync>(
    rt: &R,
    alloc: Global,
    ring: &Ring<Piece<MemDisk>>,
    mut writer: Seat<Piece<MemDisk>>,
    reader: Seat<Piece<MemDisk>>,
) -> (bool, Result<Vec<Edge>, AllocError>)
    requires at { IsAt ring.now.table.shared.table_id writer.table_id writer.me.0 }
    requires quota { 4000 ≤ writer.me.0.share.quota }
    requires reader_at { IsAt ring.now.table.shared.table_id reader.table_id reader.me.0 }
    requires ids { reader.me.0.about.vertices ≤ ID_LIMIT }
    requires slots { ring.now.table.shared.key.layout.ring ≡ 4096 }
    requires shards { ring.now.table.shared.key.layout.shards ≡ 1 }
    requires vertices { ring.now.table.shared.key.layout.vertices ≡ 8 }
{
    thread::join(
        rt,
        move || -> bool { put_all(ring, &mut writer, OLD, ENTRIES) },
        move || -> Result<Vec<Edge>, AllocError> { stream_all(rt, alloc, ring, reader) },
    )
}

#[test]
fn a_stream_beside_a_thread_that_puts_gives_the_log(rt: HostRuntime) -> Result<(), Fail> {
    let disk = MemDisk::new(rt.alloc(), &file_of(rt.alloc(), OLD)?, 1000)?;
    let Begun {
        ring,
        seat: mut writer,
        front,
    } = opened(rt.alloc(), disk, 4096)?;
    let reader = ring.split(&mut writer, 0, 1);
    let (all_put, streamed) = put_and_stream(&rt, rt.alloc(), &ring, writer, reader);
    let streamed = streamed?;
    assert!(rt; front == OLD && all_put && streamed.len() as u64 == ENTRIES);
    assert!(rt; are_from(&streamed, 0));
    Ok(())
}
