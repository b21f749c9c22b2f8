// The calls of a small store, each with what it answers and leaves, for one session and for two by turns.

use crate::fixture::{
    add, are_cut_at, assert_neighbours, assert_next, bytes_of, close_stream, degree, del,
    drop_view, first_session, held, offer, put, put_all, start_stream, turn, view,
};
use go_api::{Offer, Place, Reached, Store};
use std::boxed::Box;
use std::test::Fail;

// The file of 8 vertices and the addition of 3 to 5.
const FILE: [u8; 29] = [
    0x01, 0x47, 0x52, 0x4F, 0x4E, 0x45, 0x4C, 0x4F, 0x47, 0x01, 0x00, 0x08, 0x00, 0x00, 0x00, 0x01,
    0x01, 0x00, 0x00, 0x00, 0x05, 0x00, 0x00, 0x80, 0x01, 0x00, 0x00, 0x00, 0x00,
];

#[test]
fn entries_of_a_list_are_put_in_their_order(rt: HostRuntime) -> Result<(), Fail> {
    let mut session = first_session(rt.alloc(), 2)?;
    let edges = [add(1, 2), add(1, 3), add(0, 4), add(1, 2), del(1, 2)];
    assert_eq!(rt; put_all(&mut session, &edges)?, Some(4));
    assert_eq!(rt; put_all(&mut session, &[])?, None);
    assert_eq!(rt; put_all(&mut session, &[add(1, 6)])?, Some(5));
    assert_eq!(rt; (session.seat().quota, view(&mut session, 3)?), (194, 6));
    assert_neighbours(&rt, rt.alloc(), &mut session, 3, 1, &[3, 2, 6])?;
    assert_neighbours(&rt, rt.alloc(), &mut session, 3, 0, &[4])?;
    assert_neighbours(&rt, rt.alloc(), &mut session, 3, 2, &[])
}

#[test]
fn an_offer_is_busy_just_where_the_ring_is_full(rt: HostRuntime) -> Result<(), Fail> {
    let mut session = first_session(rt.alloc(), 2)?;
    assert_eq!(rt; offer(&mut session, add(1, 2))?, Offer::At { position: 0 });
    assert_eq!(rt; offer(&mut session, add(1, 3))?, Offer::At { position: 1 });
    let busy = Offer::Busy {
        head: 2,
        released: 0,
    };
    assert_eq!(rt; offer(&mut session, add(1, 4))?, busy);
    assert_eq!(rt; (session.seat().quota, session.sync()), (198, Ok(2)));
    assert_eq!(rt; offer(&mut session, del(1, 2))?, Offer::At { position: 2 });
    assert_eq!(rt; view(&mut session, 0)?, 3);
    assert_neighbours(&rt, rt.alloc(), &mut session, 0, 1, &[3])
}

#[test]
fn a_put_empties_a_full_ring_for_the_offers_after_it(rt: HostRuntime) -> Result<(), Fail> {
    let mut session = first_session(rt.alloc(), 2)?;
    put_all(&mut session, &[add(1, 2), add(1, 3)])?;
    assert_eq!(rt; put(&mut session, add(1, 5))?, 2);
    assert_eq!(rt; offer(&mut session, del(1, 2))?, Offer::At { position: 3 });
    let busy = Offer::Busy {
        head: 4,
        released: 2,
    };
    assert_eq!(rt; offer(&mut session, add(1, 6))?, busy);
    assert_eq!(rt; view(&mut session, 0)?, 4);
    assert_neighbours(&rt, rt.alloc(), &mut session, 0, 1, &[3, 5])
}

#[test]
fn degrees_are_those_of_each_view(rt: HostRuntime) -> Result<(), Fail> {
    let mut session = first_session(rt.alloc(), 2)?;
    view(&mut session, 0)?;
    put_all(&mut session, &[add(1, 2), add(1, 3), add(1, 2)])?;
    view(&mut session, 1)?;
    put_all(&mut session, &[del(1, 2), add(7, 1)])?;
    view(&mut session, 2)?;
    let of_one = [
        degree(&mut session, 0, 1)?,
        degree(&mut session, 1, 1)?,
        degree(&mut session, 2, 1)?,
    ];
    assert_eq!(rt; of_one, [0, 3, 2]);
    let of_seven = [degree(&mut session, 1, 7)?, degree(&mut session, 2, 7)?];
    assert_eq!(rt; of_seven, [0, 1]);
    Ok(())
}

#[test]
fn the_place_of_a_dropped_view_is_free_for_a_later_one(rt: HostRuntime) -> Result<(), Fail> {
    let mut session = first_session(rt.alloc(), 2)?;
    put(&mut session, add(1, 2))?;
    let fronts = [view(&mut session, 1)?, view(&mut session, 2)?];
    assert_eq!(rt; fronts, [1, 1]);
    put(&mut session, add(1, 3))?;
    drop_view(&mut session, 1)?;
    let left = [held(&session, 1)?, held(&session, 2)?];
    assert_eq!(rt; left, [Place::Free, Place::View { front: 1 }]);
    assert_eq!(rt; view(&mut session, 1)?, 2);
    assert_neighbours(&rt, rt.alloc(), &mut session, 1, 1, &[2, 3])?;
    assert_neighbours(&rt, rt.alloc(), &mut session, 2, 1, &[2])
}

#[test]
fn a_stream_gives_each_later_entry_once(rt: HostRuntime) -> Result<(), Fail> {
    let mut session = first_session(rt.alloc(), 2)?;
    put(&mut session, add(1, 1))?;
    assert_eq!(rt; start_stream(&mut session, 0)?, 1);
    let edges = [add(1, 2), add(3, 3), del(1, 2), add(1, 4), add(1, 5)];
    put_all(&mut session, &edges)?;
    assert_next(&rt, rt.alloc(), &mut session, 2, 1, &[add(1, 2), add(3, 3)])?;
    assert_next(&rt, rt.alloc(), &mut session, 2, 3, &[del(1, 2), add(1, 4)])?;
    assert_next(&rt, rt.alloc(), &mut session, 2, 5, &[add(1, 5)])?;
    assert_next(&rt, rt.alloc(), &mut session, 2, 6, &[])
}

#[test]
fn a_closed_stream_leaves_its_place_free(rt: HostRuntime) -> Result<(), Fail> {
    let mut session = first_session(rt.alloc(), 2)?;
    let cursors = [
        start_stream(&mut session, 0)?,
        start_stream(&mut session, 3)?,
    ];
    assert_eq!(rt; cursors, [0, 0]);
    put(&mut session, add(1, 1))?;
    close_stream(&mut session, 3)?;
    let left = [held(&session, 0)?, held(&session, 3)?];
    assert_eq!(rt; left, [Place::Stream { cursor: 0 }, Place::Free]);
    assert_eq!(rt; start_stream(&mut session, 3)?, 1);
    assert_next(&rt, rt.alloc(), &mut session, 9, 0, &[add(1, 1)])
}

#[test]
fn until_looks_at_the_whole_log(rt: HostRuntime) -> Result<(), Fail> {
    let mut session = first_session(rt.alloc(), 2)?;
    assert_eq!(rt; session.until(0), Ok(Reached::Yes { front: 0 }));
    assert_eq!(rt; session.until(1), Ok(Reached::NotYet { seen: 0 }));
    put_all(&mut session, &[add(1, 1), add(1, 2), add(1, 3)])?;
    assert_eq!(rt; session.until(2), Ok(Reached::Yes { front: 2 }));
    assert_eq!(rt; session.until(3), Ok(Reached::Yes { front: 3 }));
    assert_eq!(rt; session.until(4), Ok(Reached::NotYet { seen: 3 }));
    Ok(())
}

#[test]
fn synced_entries_are_on_the_disk(rt: HostRuntime) -> Result<(), Fail> {
    let mut session = first_session(rt.alloc(), 2)?;
    assert_eq!(rt; session.sync(), Ok(0));
    put(&mut session, add(3, 5))?;
    assert_eq!(rt; session.sync(), Ok(1));
    put(&mut session, add(3, 6))?;
    let disk = Box::into_inner(session.back().body).into_disk();
    assert_eq!(rt; bytes_of(rt.alloc(), &disk)?.as_slice(), FILE.as_slice());
    Ok(())
}

#[test]
fn views_show_what_another_session_put_before_them(rt: HostRuntime) -> Result<(), Fail> {
    let mut one = first_session(rt.alloc(), 2)?;
    put(&mut one, add(1, 2))?;
    view(&mut one, 0)?;
    let mut two = turn(one.back(), 2)?;
    assert_eq!(rt; put_all(&mut two, &[add(1, 3), add(1, 4)])?, Some(2));
    assert_eq!(rt; (held(&two, 0)?, two.seat().quota), (Place::Free, 198));
    let mut one = turn(two.back(), 1)?;
    assert_eq!(rt;
        (one.seat().quota, one.until(3)),
        (199, Ok(Reached::Yes { front: 3 }))
    );
    assert_eq!(rt; (put(&mut one, del(1, 3))?, view(&mut one, 2)?), (3, 4));
    assert_neighbours(&rt, rt.alloc(), &mut one, 0, 1, &[2])?;
    assert_neighbours(&rt, rt.alloc(), &mut one, 2, 1, &[2, 4])
}

#[test]
fn a_stream_gives_the_entries_of_each_session(rt: HostRuntime) -> Result<(), Fail> {
    let mut one = first_session(rt.alloc(), 2)?;
    assert_eq!(rt; start_stream(&mut one, 0)?, 0);
    put(&mut one, add(1, 2))?;
    let mut two = turn(one.back(), 2)?;
    put_all(&mut two, &[add(1, 3), del(1, 2)])?;
    assert_eq!(rt; start_stream(&mut two, 0)?, 3);
    let mut one = turn(two.back(), 1)?;
    put(&mut one, add(1, 4))?;
    let all = [add(1, 2), add(1, 3), del(1, 2), add(1, 4)];
    assert_next(&rt, rt.alloc(), &mut one, 9, 0, &all)?;
    let mut two = turn(one.back(), 2)?;
    assert_next(&rt, rt.alloc(), &mut two, 9, 3, &[add(1, 4)])
}

#[test]
fn a_compaction_goes_to_the_oldest_view(rt: HostRuntime) -> Result<(), Fail> {
    let mut one = first_session(rt.alloc(), 4)?;
    put_all(&mut one, &[add(1, 2), add(1, 3)])?;
    view(&mut one, 0)?;
    put_all(&mut one, &[del(1, 2), add(1, 4)])?;
    view(&mut one, 1)?;
    put(&mut one, add(1, 5))?;
    assert_eq!(rt; one.compact(), Ok(()));
    assert_neighbours(&rt, rt.alloc(), &mut one, 0, 1, &[2, 3])?;
    assert_neighbours(&rt, rt.alloc(), &mut one, 1, 1, &[3, 4])?;
    assert!(rt; are_cut_at(&one.back(), 2));
    Ok(())
}

#[test]
fn a_dropped_view_holds_no_compaction(rt: HostRuntime) -> Result<(), Fail> {
    let mut one = first_session(rt.alloc(), 4)?;
    put_all(&mut one, &[add(1, 2), add(1, 3)])?;
    view(&mut one, 0)?;
    put(&mut one, del(1, 2))?;
    view(&mut one, 1)?;
    put(&mut one, add(1, 5))?;
    drop_view(&mut one, 0)?;
    assert_eq!(rt; one.compact(), Ok(()));
    assert_neighbours(&rt, rt.alloc(), &mut one, 1, 1, &[3])?;
    assert!(rt; are_cut_at(&one.back(), 3));
    Ok(())
}

#[test]
fn the_view_of_another_session_holds_a_compaction(rt: HostRuntime) -> Result<(), Fail> {
    let mut one = first_session(rt.alloc(), 4)?;
    put(&mut one, add(1, 2))?;
    let mut two = turn(one.back(), 2)?;
    view(&mut two, 0)?;
    let mut one = turn(two.back(), 1)?;
    put(&mut one, del(1, 2))?;
    assert_eq!(rt; one.compact(), Ok(()));
    let store = one.back();
    assert!(rt; are_cut_at(&store, 1));
    let mut two = turn(store, 2)?;
    assert_neighbours(&rt, rt.alloc(), &mut two, 0, 1, &[2])?;
    drop_view(&mut two, 0)?;
    assert_eq!(rt; two.compact(), Ok(()));
    assert!(rt; are_cut_at(&two.back(), 2));
    Ok(())
}

#[test]
fn a_ring_of_128_slots_is_moved_out_as_one_block(rt: HostRuntime) -> Result<(), Fail> {
    let mut session = first_session(rt.alloc(), 128)?;
    for i in 0..128 {
        assert_eq!(rt; put(&mut session, add(1, i as u32 % 8))?, i);
    }
    let busy = Offer::Busy {
        head: 128,
        released: 0,
    };
    assert_eq!(rt; offer(&mut session, add(1, 0))?, busy);
    view(&mut session, 0)?;
    assert_eq!(rt; put(&mut session, del(1, 0))?, 128);
    view(&mut session, 1)?;
    let degrees = [degree(&mut session, 0, 1)?, degree(&mut session, 1, 1)?];
    assert_eq!(rt; degrees, [128, 127]);
    let finished = session.back().finish();
    assert_eq!(rt; (finished.durable, finished.stop), (129, None));
    let bytes = bytes_of(rt.alloc(), &finished.disk)?;
    assert_eq!(rt; bytes.len(), 16 + (5 + 8 * 128) + (5 + 8));
    Ok(())
}
