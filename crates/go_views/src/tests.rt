// Views of one thread: of words that are in the ring, beside one another, and after a release.

use crate::fixture::{
    Two, edges_to, have_pins, opened, put_all, released, shows, taken, two_taken,
};
use go_api::Stop;
use go_ring::RingCalls;
use go_rule::Opened;
use std::test::Fail;

#[test]
fn a_view_stays_what_it_was(rt: HostRuntime) -> Result<(), Fail> {
    let alloc = rt.alloc();
    let Opened {
        ring,
        seat: mut writer,
    } = opened(alloc, 32)?;
    let mut reader = ring.split(&mut writer, 0, 1);
    let Two { first, second } = two_taken(&rt, alloc, &ring, &mut writer, &mut reader, 11, 30)?;
    assert!(rt;
        shows(
            &rt,
            alloc,
            &ring,
            &mut reader,
            &second,
            &edges_to(alloc, 30)?
        )?
    );
    assert!(rt;
        shows(
            &rt,
            alloc,
            &ring,
            &mut reader,
            &first,
            &edges_to(alloc, 11)?
        )?
    );
    Ok(())
}

// As the second view is gone, its names are free again.
#[test]
fn a_released_view_leaves_the_others(rt: HostRuntime) -> Result<(), Fail> {
    let alloc = rt.alloc();
    let Opened {
        ring,
        seat: mut writer,
    } = opened(alloc, 32)?;
    let mut reader = ring.split(&mut writer, 0, 1);
    let Two { first, second } = two_taken(&rt, alloc, &ring, &mut writer, &mut reader, 9, 13)?;
    assert!(rt; have_pins(&rt, &ring, &mut reader, 2));
    released(&rt, &ring, &mut reader, second);
    assert!(rt; have_pins(&rt, &ring, &mut reader, 1));
    assert!(rt; shows(&rt, alloc, &ring, &mut reader, &first, &edges_to(alloc, 9)?)?);
    released(&rt, &ring, &mut reader, first);
    assert!(rt; have_pins(&rt, &ring, &mut reader, 0));
    Ok(())
}

#[test]
fn a_raised_flag_ends_a_wait_for_the_floor(rt: HostRuntime) -> Result<(), Fail> {
    let alloc = rt.alloc();
    for why in [Stop::Disk, Stop::Memory] {
        let Opened {
            ring,
            seat: mut writer,
        } = opened(alloc, 8)?;
        let mut reader = ring.split(&mut writer, 0, 1);
        let mut buf = [0; 8];
        assert!(rt; put_all(&ring, &mut writer, 0, 2));
        ring.raise(&mut writer, why);
        let refused = taken(&rt, alloc, &ring, &mut reader, &mut buf, 3);
        assert!(rt; refused.err() == Some(why));
        assert!(rt; have_pins(&rt, &ring, &mut reader, 0));
        let Ok(view) = taken(&rt, alloc, &ring, &mut reader, &mut buf, 2) else {
            return Err(Fail::new("no view"));
        };
        assert!(rt; shows(&rt, alloc, &ring, &mut reader, &view, &edges_to(alloc, 2)?)?);
    }
    Ok(())
}
