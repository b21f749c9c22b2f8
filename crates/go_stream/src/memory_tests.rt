// Updates with memory refused: the stream stands where it stood, and the next update gives all. The twin hands the refusal on, so that
// tools/refuse_calls.sh, which refuses one allocation after another, knows which of them were the update's own.

use crate::LiveStream;
use crate::fixture::{Begun, are_from, file_of, next, opened};
use crate::tests::put_all;
use go_api::{Span, Stop};
use go_disk::MemDisk;
use go_ring::RingCalls;
use std::alloc::AllocError;
use std::test::Fail;

#[test]
fn a_refused_update_changes_nothing(rt: HostRuntime) -> Result<(), Fail> {
    let disk = MemDisk::new(rt.alloc(), &file_of(rt.alloc(), 5)?, 1000)?;
    let Begun {
        ring,
        mut seat,
        front,
    } = opened(rt.alloc(), disk, 8)?;
    let mut reader = ring.split(&mut seat, 0, 1);
    assert!(rt; front == 5 && put_all(&ring, &mut seat, 5, 11));
    let mut stream = LiveStream::start(0);
    let mut buf = [0; 8];
    let mut out = Vec::new(rt.alloc());
    let mut span = next(
        &rt,
        &ring,
        &mut reader,
        &mut stream,
        &mut buf,
        99,
        11,
        &mut out,
    );
    if span == Err(Stop::Memory) {
        assert_eq!(rt; stream.cursor(), 0);
        span = next(
            &rt,
            &ring,
            &mut reader,
            &mut stream,
            &mut buf,
            99,
            11,
            &mut out,
        );
    }
    assert!(rt; span == Ok(Span { from: 0, to: 11 }) && out.len() == 11 && are_from(&out, 0));
    Ok(())
}

#[test]
fn an_update_is_given_where_there_is_memory(rt: HostRuntime) -> Result<(), Fail> {
    let disk = MemDisk::new(rt.alloc(), &file_of(rt.alloc(), 5)?, 1000)?;
    let Begun {
        ring,
        mut seat,
        front,
    } = opened(rt.alloc(), disk, 8)?;
    let mut reader = ring.split(&mut seat, 0, 1);
    assert!(rt; front == 5 && put_all(&ring, &mut seat, 5, 11));
    let mut stream = LiveStream::start(0);
    let mut buf = [0; 8];
    let mut out = Vec::new(rt.alloc());
    let span = next(
        &rt,
        &ring,
        &mut reader,
        &mut stream,
        &mut buf,
        99,
        11,
        &mut out,
    );
    if span == Err(Stop::Memory) {
        return Err(AllocError.into());
    }
    assert!(rt; span == Ok(Span { from: 0, to: 11 }));
    Ok(())
}
