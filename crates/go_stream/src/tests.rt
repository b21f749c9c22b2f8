// Streams of one thread: from the file, from the ring, and across both.
ghost use Rattle.std.specs.Prelude.{◌≡◌, ◌+◌, ◌≤◌, length};
ghost use Rattle.go_rule.specs.Steps.{IsAt};

use crate::LiveStream;
use crate::fixture::{Begun, are_from, edge, file_of, next, opened, put};
use go_api::{Span, Stop};
use go_disk::MemDisk;
use go_piece::Piece;
use go_ring::RingCalls;
use go_rule::{Ring, Seat};
use std::test::Fail;

// Puts the entries from a position on up to another.
pub(crate) fn put_all(
    ring: &Ring<Piece<MemDisk>>,
    seat: &mut Seat<Piece<MemDisk>>,
    from: u64,
    to: u64,
) -> bool
    requires at { IsAt ring.now.table.shared.table_id seat.old.table_id seat.old.me.0 }
    requires vertices { ring.now.table.shared.key.layout.vertices ≡ 8 }
    requires quota { to ≤ from + seat.old.me.0.share.quota }
    ensures at { IsAt ring.now.table.shared.table_id seat.new.table_id seat.new.me.0 }
{
    for at in from..to {
        if !put(ring, seat, edge(at)) {
            return false;
        }
    }
    true
}

#[test]
fn entries_that_left_the_ring_come_from_the_file(rt: HostRuntime) -> Result<(), Fail> {
    let disk = MemDisk::new(rt.alloc(), &file_of(rt.alloc(), 5)?, 1000)?;
    let Begun {
        ring,
        mut seat,
        front: _,
    } = opened(rt.alloc(), disk, 8)?;
    let mut stream = LiveStream::start(0);
    let mut buf = [0; 8];
    let mut out = Vec::new(rt.alloc());
    let span = next(&rt, &ring, &mut seat, &mut stream, &mut buf, 2, 2, &mut out);
    assert!(rt; span == Ok(Span { from: 0, to: 2 }) && out.len() == 2 && are_from(&out, 0));
    let span = next(&rt, &ring, &mut seat, &mut stream, &mut buf, 2, 5, &mut out);
    assert!(rt; span == Ok(Span { from: 2, to: 4 }) && out.len() == 2 && are_from(&out, 2));
    let span = next(&rt, &ring, &mut seat, &mut stream, &mut buf, 9, 5, &mut out);
    assert!(rt; span == Ok(Span { from: 4, to: 5 }) && out.len() == 1 && are_from(&out, 4));
    let span = next(&rt, &ring, &mut seat, &mut stream, &mut buf, 9, 5, &mut out);
    assert!(rt; span == Ok(Span { from: 5, to: 5 }) && out.len() == 0 && stream.cursor() == 5);
    Ok(())
}

#[test]
fn what_is_in_the_ring_comes_from_there(rt: HostRuntime) -> Result<(), Fail> {
    let disk = MemDisk::new(rt.alloc(), b"", 1000)?;
    let Begun {
        ring,
        mut seat,
        front,
    } = opened(rt.alloc(), disk, 8)?;
    let mut reader = ring.split(&mut seat, 0, 1);
    assert!(rt; front == 0 && put_all(&ring, &mut seat, 0, 7));
    let mut stream = LiveStream::start(front);
    let mut buf = [0; 8];
    let mut out = Vec::new(rt.alloc());
    let span = next(
        &rt,
        &ring,
        &mut reader,
        &mut stream,
        &mut buf,
        3,
        7,
        &mut out,
    );
    assert!(rt; span == Ok(Span { from: 0, to: 3 }) && out.len() == 3 && are_from(&out, 0));
    let span = next(
        &rt,
        &ring,
        &mut reader,
        &mut stream,
        &mut buf,
        9,
        7,
        &mut out,
    );
    assert!(rt; span == Ok(Span { from: 3, to: 7 }) && out.len() == 4 && are_from(&out, 3));
    let span = next(
        &rt,
        &ring,
        &mut reader,
        &mut stream,
        &mut buf,
        1,
        0,
        &mut out,
    );
    assert!(rt; span == Ok(Span { from: 7, to: 7 }) && out.len() == 0 && stream.cursor() == 7);
    Ok(())
}

#[test]
fn a_span_goes_on_from_the_file_into_the_ring(rt: HostRuntime) -> Result<(), Fail> {
    for (from, max, to) in [(0, 99, 11), (3, 4, 7), (4, 1, 5), (5, 1, 6), (4, 2, 6)] {
        let disk = MemDisk::new(rt.alloc(), &file_of(rt.alloc(), 5)?, 1000)?;
        let Begun {
            ring,
            mut seat,
            front,
        } = opened(rt.alloc(), disk, 8)?;
        let mut reader = ring.split(&mut seat, 0, 1);
        assert!(rt; front == 5 && put_all(&ring, &mut seat, 5, 11));
        let mut stream = LiveStream::start(front.min(from));
        let mut buf = [0; 8];
        let mut out = Vec::new(rt.alloc());
        let span = next(
            &rt,
            &ring,
            &mut reader,
            &mut stream,
            &mut buf,
            max,
            11,
            &mut out,
        );
        assert!(rt; span == Ok(Span { from, to }) && stream.cursor() == to);
        assert!(rt; out.len() as u64 == to.wrapping_sub(from) && are_from(&out, from));
    }
    Ok(())
}

// The file has 128 entries, and the ring 70 behind them, which a ring of 70 slots is full of.
#[test]
fn a_span_ends_where_the_window_of_the_ring_does(rt: HostRuntime) -> Result<(), Fail> {
    let file = file_of(rt.alloc(), 128)?;
    for slots in [70, 128] {
        let disk = MemDisk::new(rt.alloc(), &file, 1000)?;
        let Begun {
            ring,
            mut seat,
            front,
        } = opened(rt.alloc(), disk, slots)?;
        let mut reader = ring.split(&mut seat, 0, 1);
        assert!(rt; front == 128 && put_all(&ring, &mut seat, 128, 198));
        let mut stream = LiveStream::start(front.min(100));
        let mut buf = vec![in rt.alloc(); 0; slots as usize]?;
        let mut out = Vec::new(rt.alloc());
        let span = next(
            &rt,
            &ring,
            &mut reader,
            &mut stream,
            &mut buf,
            200,
            198,
            &mut out,
        );
        assert!(rt; span == Ok(Span { from: 100, to: 198 }) && stream.cursor() == 198);
        assert!(rt; out.len() == 98 && are_from(&out, 100));
    }
    Ok(())
}

// A reading is one call of the disk. As the ring is made over a file that is there, others are made before it.
#[test]
fn a_disk_that_fails_leaves_the_stream_where_it_stood(rt: HostRuntime) -> Result<(), Fail> {
    let file = file_of(rt.alloc(), 5)?;
    let mut failed = 0u32;
    for call in 0..20 {
        let disk = MemDisk::failing(rt.alloc(), &file, &[call], 1000)?;
        let Ok(
            Begun {
                ring,
                mut seat,
                front: _,
            },
        ) = opened(rt.alloc(), disk, 8)
        else {
            continue;
        };
        let mut stream = LiveStream::start(0);
        let mut buf = [0; 8];
        let mut out = Vec::new(rt.alloc());
        let span = next(&rt, &ring, &mut seat, &mut stream, &mut buf, 3, 0, &mut out);
        if span == Err(Stop::Disk) {
            failed = failed.wrapping_add(1);
            assert_eq!(rt; (stream.cursor(), out.len()), (0, 0));
            let again = next(&rt, &ring, &mut seat, &mut stream, &mut buf, 3, 0, &mut out);
            assert!(rt; again == Err(Stop::Disk) && stream.cursor() == 0);
        } else {
            assert!(rt; span == Ok(Span { from: 0, to: 3 }) && are_from(&out, 0));
        }
    }
    assert_eq!(rt; failed, 1);
    Ok(())
}

#[test]
fn a_raised_flag_ends_a_wait_for_the_floor(rt: HostRuntime) -> Result<(), Fail> {
    for why in [Stop::Disk, Stop::Memory] {
        let disk = MemDisk::new(rt.alloc(), b"", 1000)?;
        let Begun {
            ring,
            mut seat,
            front,
        } = opened(rt.alloc(), disk, 8)?;
        let mut reader = ring.split(&mut seat, 0, 1);
        assert!(rt; put_all(&ring, &mut seat, 0, 2));
        ring.raise(&mut seat, why);
        let mut stream = LiveStream::start(front);
        let mut buf = [0; 8];
        let mut out = Vec::new(rt.alloc());
        let span = next(
            &rt,
            &ring,
            &mut reader,
            &mut stream,
            &mut buf,
            9,
            3,
            &mut out,
        );
        assert!(rt; span == Err(why) && stream.cursor() == 0);
        let span = next(
            &rt,
            &ring,
            &mut reader,
            &mut stream,
            &mut buf,
            9,
            2,
            &mut out,
        );
        assert!(rt; span == Ok(Span { from: 0, to: 2 }) && are_from(&out, 0));
    }
    Ok(())
}
