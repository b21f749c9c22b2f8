// Logs on disks in memory, at cases worked out by hand.
use crate::fixture::{
    EDGE, FILE, Refused, SECOND, VERTICES, add, assert_recovers, attach_and_add_two, bytes_of,
    disk_of, found, refusal,
};
use crate::{Opened, attach, log_laws, recovery_laws};
use go_blocks::BadKind;
use go_disk::MemDisk;
use std::test::Fail;

#[test]
fn empty_disk_is_made_in_eight_calls_and_an_edge_added_in_four(
    rt: HostRuntime,
) -> Result<(), Fail> {
    log_laws::<MemDisk>();
    recovery_laws();
    for (calls, acknowledged) in [
        (7, None),
        (8, Some(0)),
        (11, Some(0)),
        (12, Some(1)),
        (15, Some(1)),
        (16, Some(2)),
    ] {
        let tried = attach_and_add_two(
            &rt,
            rt.alloc(),
            MemDisk::stopping(rt.alloc(), b"", calls, 200)?,
        );
        assert_eq!(rt; tried.acknowledged, acknowledged, "{calls} calls");
    }
    let disk = MemDisk::stopping(rt.alloc(), b"", 12, 200)?;
    let Opened { log, edges } = match attach(rt.alloc(), disk, VERTICES, 10) {
        Ok(opened) => opened,
        Err(_fault) => return Err(Fail::new("not attached")),
    };
    assert_eq!(rt; (edges.len(), log.front(), log.vertices()), (0, 0, 8));
    let Ok(log) = add(&rt, log, EDGE) else {
        return Err(Fail::new("not added"));
    };
    assert_eq!(rt; log.front(), 1);
    assert_eq!(rt;
        bytes_of(rt.alloc(), &log.into_disk())?.as_slice(),
        FILE.as_slice()
    );
    Ok(())
}

#[test]
fn each_call_that_fails_or_stops_leaves_a_front_with_all_acknowledged(
    rt: HostRuntime,
) -> Result<(), Fail> {
    for call in 0..16 {
        let failing = MemDisk::failing(rt.alloc(), b"", &[call], 200)?;
        let tried = attach_and_add_two(&rt, rt.alloc(), failing);
        let acknowledged = if call < 8 {
            None
        } else if call < 12 {
            Some(0)
        } else {
            Some(1)
        };
        assert_eq!(rt; tried.acknowledged, acknowledged, "call {call} fails");
        assert_recovers(&rt, rt.alloc(), &tried, "failing")?;
        let stopping = MemDisk::stopping(rt.alloc(), b"", call, 200)?;
        let tried = attach_and_add_two(&rt, rt.alloc(), stopping);
        assert_eq!(rt; tried.acknowledged, acknowledged, "stopped at call {call}");
        assert_recovers(&rt, rt.alloc(), &tried, "stopping")?;
    }
    Ok(())
}

#[test]
fn sync_of_the_second_body_fails_and_each_image_has_the_first_edge_alone(
    rt: HostRuntime,
) -> Result<(), Fail> {
    let tried = attach_and_add_two(
        &rt,
        rt.alloc(),
        MemDisk::failing(rt.alloc(), b"", &[13], 200)?,
    );
    assert_eq!(rt; tried.acknowledged, Some(1));
    for pick in 0..40 {
        let mut image = Vec::new(rt.alloc());
        tried.disk.image(pick, &mut image)?;
        let edges = found(rt.alloc(), &image, 10)?;
        assert_eq!(rt;
            edges.as_ref().map(|edges| edges.as_slice()),
            Ok([EDGE].as_slice()),
            "image {pick}"
        );
    }
    Ok(())
}

#[test]
fn bytes_are_attached_made_or_refused(rt: HostRuntime) -> Result<(), Fail> {
    let mut closed = FILE;
    closed[0] = 0;
    let mut other = FILE;
    other[11] = 9;
    let mut opened = FILE;
    opened[28] = 1;
    for (bytes, room, want) in [
        (&FILE[..0], 0, Ok(0)),
        (&FILE[..1], 0, Ok(0)),
        (&closed[..16], 0, Ok(0)),
        (&closed[..17], 9, Err(Refused::Bad(0, BadKind::Magic))),
        (&FILE[..16], 9, Err(Refused::Bad(16, BadKind::Short))),
        (&FILE[..], 1, Ok(1)),
        (&FILE[..], 0, Err(Refused::TooMany(1))),
        (&other[..], 0, Err(Refused::Vertices(9))),
        (&opened[..], 0, Err(Refused::Bad(29, BadKind::Short))),
    ] {
        let edges = found(rt.alloc(), bytes, room)?;
        assert_eq!(rt;
            edges.map(|edges| edges.len()),
            want,
            "{} bytes",
            bytes.len()
        );
    }
    let disk = MemDisk::new(rt.alloc(), &closed[..16], 100)?;
    let Ok(Opened { log, edges: _ }) = attach(rt.alloc(), disk, VERTICES, 0) else {
        return Err(Fail::new("not made"));
    };
    let made = bytes_of(rt.alloc(), &log.into_disk())?;
    assert_eq!(rt;
        (made.len(), made.first(), made.last()),
        (16, Some(&1), Some(&0))
    );
    assert_eq!(rt; &made[1..15], &FILE[1..15]);
    Ok(())
}

#[test]
fn refused_disk_is_handed_back_as_it_was(rt: HostRuntime) -> Result<(), Fail> {
    let disk = MemDisk::new(rt.alloc(), &FILE, 100)?;
    match attach(rt.alloc(), disk, 9, 10) {
        Ok(_) => return Err(Fail::new("attached")),
        Err(fault) => {
            assert_eq!(rt; refusal(&fault), Refused::Vertices(8));
            assert_eq!(rt;
                bytes_of(rt.alloc(), &disk_of(fault))?.as_slice(),
                FILE.as_slice()
            );
        }
    }
    Ok(())
}
