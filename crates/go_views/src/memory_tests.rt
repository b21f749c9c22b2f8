// Views with memory refused: no pin more stands, and the next view is taken. The twin hands the refusal on, so that
// tools/refuse_calls.sh, which refuses one allocation after another, knows which of them were the view's own.

use crate::fixture::{have_pins, opened, put_all, taken};
use go_api::Stop;
use go_ring::RingCalls;
use go_rule::Opened;
use std::alloc::AllocError;
use std::test::Fail;

// The second view needs memory in each shard for its pin, and for its counts, its words and its names.
#[test]
fn a_refused_view_leaves_the_pins_of_the_others(rt: HostRuntime) -> Result<(), Fail> {
    let alloc = rt.alloc();
    let Opened {
        ring,
        seat: mut writer,
    } = opened(alloc, 8)?;
    let mut reader = ring.split(&mut writer, 0, 1);
    let mut buf = [0; 8];
    assert!(rt; put_all(&ring, &mut writer, 0, 5));
    let Ok(_first) = taken(&rt, alloc, &ring, &mut reader, &mut buf, 5) else {
        return Err(Fail::from(AllocError));
    };
    let mut second = taken(&rt, alloc, &ring, &mut reader, &mut buf, 5);
    if let Err(why) = second {
        assert!(rt; why == Stop::Memory);
        assert!(rt; have_pins(&rt, &ring, &mut reader, 1));
        second = taken(&rt, alloc, &ring, &mut reader, &mut buf, 5);
    }
    assert!(rt; second.is_ok());
    assert!(rt; have_pins(&rt, &ring, &mut reader, 2));
    Ok(())
}

#[test]
fn the_view_is_taken_where_there_is_memory(rt: HostRuntime) -> Result<(), Fail> {
    let alloc = rt.alloc();
    let Opened {
        ring,
        seat: mut writer,
    } = opened(alloc, 8)?;
    let mut reader = ring.split(&mut writer, 0, 1);
    let mut buf = [0; 8];
    assert!(rt; put_all(&ring, &mut writer, 0, 5));
    let Ok(_first) = taken(&rt, alloc, &ring, &mut reader, &mut buf, 5) else {
        return Err(Fail::from(AllocError));
    };
    let Ok(_second) = taken(&rt, alloc, &ring, &mut reader, &mut buf, 5) else {
        return Err(Fail::from(AllocError));
    };
    assert!(rt; have_pins(&rt, &ring, &mut reader, 2));
    Ok(())
}
