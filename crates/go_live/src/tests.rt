// A session alone on a ring: it puts, sees its own entries, and gives up what it has.
ghost use Rattle.go_live.specs.Live.{state_of};
ghost use Rattle.go_live.specs.Samples.{MayBegin};

use crate::LiveStore;
use crate::fixture::{new_seat, opened};
use go_api::{Stop, Store};
use go_disk::MemDisk;
use go_rule::Opened;
use go_word::Edge;
use std::sync::Wait;
use std::test::Fail;

// What a session is told that puts two entries and asks a view of them: its front, and the degree of their source.
fn told<R: Wait>(store: &mut LiveStore<'_, MemDisk, R>) -> Result<(u64, u32), Stop>
    requires { MayBegin 2 (state_of store.old) }
{
    let edge = Edge {
        del: false,
        src: 3,
        dst: 5,
    };
    store.put(edge)?;
    store.put(edge)?;
    let front = store.view(0)?;
    let degree = store.degree(0, 3)?;
    store.drop_view(0);
    Ok((front, degree))
}

#[test]
fn a_session_alone_sees_its_own_entries(rt: HostRuntime) -> Result<(), Fail> {
    let alloc = rt.alloc();
    let Opened {
        ring,
        seat: mut root,
    } = opened(alloc)?;
    let seat = new_seat(&ring, &mut root, 10);
    let Ok(mut store) = LiveStore::new(&rt, alloc, &ring, seat, 0, 8) else {
        return Err(Fail::new("no memory for the store"));
    };
    assert!(rt; told(&mut store) == Ok((2, 2)));
    Ok(())
}
