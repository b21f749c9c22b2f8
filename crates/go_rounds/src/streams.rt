// One thread updates a stream while entries come and both fronts move: nothing is given twice, nothing is skipped.
ghost use Rattle.std.specs.Prelude.{◌≡◌, ◌+◌, ◌≤◌, length, true};
ghost use Rattle.go_word.specs.declared.word.TheConstants.{ID_LIMIT};
ghost use Rattle.go_rule.specs.Steps.{IsAt};
ghost use Rattle.go_workers.specs.Samples.{HasNothing, MayArchive};

use crate::fixture::{opened, put};
use crate::schedule::{entry_at, work};
use go_api::{Span, Stop};
use go_disk::MemDisk;
use go_piece::Piece;
use go_ring::RingCalls;
use go_rule::{Opened, Ring, Seat};
use go_stream::LiveStream;
use go_word::Edge;
use std::alloc::{AllocError, Global};
use std::sync::Wait;
use std::test::Fail;

// How many steps there are, each with two entries.
const STEPS: u64 = 96;

// An update of a stream, which may be updated again then.
fn next<R: Wait>(
    rt: &R,
    ring: &Ring<Piece<MemDisk>>,
    seat: &mut Seat<Piece<MemDisk>>,
    stream: &mut LiveStream,
    buf: &mut [u64],
    max: u32,
    floor: u64,
    out: &mut Vec<Edge>,
) -> Result<Span, Stop>
    requires at { IsAt ring.now.table.shared.table_id seat.old.table_id seat.old.me.0 }
    requires seen { stream.old.cursor ≤ seat.old.me.0.core.seen }
    requires ids { seat.old.me.0.about.vertices ≤ ID_LIMIT }
    requires room { length buf.old ≡ ring.now.slots }
    requires shards { ring.now.shards ≡ 2 }
    requires some { 1 ≤ max }
    ensures at { IsAt ring.now.table.shared.table_id seat.new.table_id seat.new.me.0 }
    ensures seen { stream.new.cursor ≤ seat.new.me.0.core.seen }
    ensures ids { seat.new.me.0.about.vertices ≤ ID_LIMIT }
    ensures long { length buf.new ≡ length buf.old }
{
    stream.update(rt, ring, seat, buf, max, floor, out)
}

// Adds what a stream gives next to what it gave, by so many entries at most: whether it goes on where that ends, and is as long as it says.
fn advance<R: Wait>(
    rt: &R,
    alloc: Global,
    ring: &Ring<Piece<MemDisk>>,
    seat: &mut Seat<Piece<MemDisk>>,
    stream: &mut LiveStream,
    max: u32,
    given: &mut Vec<Edge>,
) -> Result<bool, AllocError>
    requires at { IsAt ring.now.table.shared.table_id seat.old.table_id seat.old.me.0 }
    requires seen { stream.old.cursor ≤ seat.old.me.0.core.seen }
    requires ids { seat.old.me.0.about.vertices ≤ ID_LIMIT }
    requires sizes { (ring.now.shards ≡ 2) × (ring.now.slots ≡ 16) }
    requires some { 1 ≤ max }
    ensures at { IsAt ring.now.table.shared.table_id seat.new.table_id seat.new.me.0 }
    ensures seen { stream.new.cursor ≤ seat.new.me.0.core.seen }
    ensures ids { seat.new.me.0.about.vertices ≤ ID_LIMIT }
{
    let mut buf = [0; 16];
    let mut out = Vec::new(alloc);
    let Ok(span) = next(rt, ring, seat, stream, &mut buf, max, 0, &mut out) else {
        return Ok(false);
    };
    let goes_on = span.from == given.len() as u64;
    given.extend_from_slice(&out)?;
    Ok(goes_on && span.to == given.len() as u64)
}

// Puts the entries of a step.
fn put_two(ring: &Ring<Piece<MemDisk>>, seat: &mut Seat<Piece<MemDisk>>, step: u64) -> bool
    requires at { IsAt ring.now.table.shared.table_id seat.old.table_id seat.old.me.0 }
    requires nothing { HasNothing seat.old.me }
    requires quota { 2 ≤ seat.old.me.0.share.quota }
    requires vertices { ring.now.table.shared.key.layout.vertices ≡ 8 }
    ensures at { IsAt ring.now.table.shared.table_id seat.new.table_id seat.new.me.0 }
    ensures nothing { result ≡ true → HasNothing seat.new.me }
    ensures quota { result ≡ true → seat.new.me.0.share.quota + 2 ≡ seat.old.me.0.share.quota }
{
    put(ring, seat, entry_at(step)) && put(ring, seat, entry_at(step / 2))
}

// How many entries may be given at a step: one, so that the stream falls behind the ring, and then all that there are.
fn most_at(step: u64) -> u32
    ensures { 1 ≤ result }
{
    if step % 24 == 23 { 50 } else { 1 }
}

#[test]
fn a_stream_gives_each_entry_once_while_fronts_move(rt: HostRuntime) -> Result<(), Fail> {
    let alloc = rt.alloc();
    let disk = MemDisk::new(alloc, b"", 10000)?;
    let Opened {
        ring,
        seat: mut archiver,
    } = opened(alloc, disk, 16, 192)?;
    let mut flusher = ring.split(&mut archiver, 0, 1);
    let mut compactor = ring.split(&mut archiver, 0, 1);
    let mut reader = ring.split(&mut archiver, 0, 1);
    let mut session = ring.split(&mut archiver, 192, 1);
    let mut stream = LiveStream::start(0);
    let mut log = Vec::new(alloc);
    let mut given = Vec::new(alloc);
    for step in 0..STEPS {
        assert!(rt; put_two(&ring, &mut session, step));
        log.push(entry_at(step))?;
        log.push(entry_at(step / 2))?;
        assert!(rt;
            work(
                &rt,
                alloc,
                &ring,
                &mut archiver,
                &mut flusher,
                &mut compactor,
                step
            )
        );
        assert!(rt;
            advance(
                &rt,
                alloc,
                &ring,
                &mut reader,
                &mut stream,
                most_at(step),
                &mut given
            )?
        );
    }
    assert!(rt; given.len() == 192 && given.as_slice() == log.as_slice());
    Ok(())
}
