// Rows of a ring and a small store, worked out by hand.

use crate::fixture::{add, del, store_over};
use crate::ring::Ring;
use go_api::Store;
use go_disk::MemDisk;
use std::test::Fail;

#[test]
fn words_of_one_vertex_in_the_order_of_their_arrival(rt: HostRuntime) -> Result<(), Fail> {
    let mut ring = Ring::new(rt.alloc(), 4, 3)?;
    ring.push(add(1, 2), 1);
    ring.push(add(0, 1), 1);
    ring.push(del(1, 2), 1);
    assert_eq!(rt; ring.is_full(), false);
    ring.push(add(1, 0), 1);
    assert_eq!(rt; ring.is_full(), true);
    assert_eq!(rt; ring.len(), 4);
    let mut words = [9].to_vec(rt.alloc())?;
    for (vertex, count, want) in [
        (
            1,
            4,
            [0x8000_0002, 0x8000_0000_8000_0002, 0x8000_0000].as_slice(),
        ),
        (1, 3, [0x8000_0002, 0x8000_0000_8000_0002].as_slice()),
        (1, 2, [0x8000_0002].as_slice()),
        (1, 0, [].as_slice()),
        (0, 4, [1].as_slice()),
        (2, 4, [].as_slice()),
    ] {
        ring.words_from(vertex, count, &mut words)?;
        assert_eq!(rt;
            words.as_slice(),
            want,
            "words of {vertex} in the first {count}"
        );
    }
    Ok(())
}

#[test]
fn words_of_each_front_are_those_of_the_first_entries_wherever_marks_stand(
    rt: HostRuntime,
) -> Result<(), Fail> {
    let mut ring = Ring::new(rt.alloc(), 9, 3)?;
    ring.push(add(1, 0), 1);
    ring.push(add(2, 1), 1);
    ring.mark();
    ring.push(add(1, 2), 1);
    ring.push(add(1, 1), 1);
    ring.push(add(0, 0), 1);
    ring.mark();
    ring.mark();
    ring.push(del(1, 2), 1);
    ring.push(add(2, 2), 1);
    ring.push(add(1, 0), 1);
    ring.mark();
    ring.push(add(1, 1), 1);
    let mut words = Vec::new(rt.alloc());
    for count in 0..10 {
        for vertex in 0..3 {
            ring.words_from(vertex, count, &mut words)?;
            let mut want = Vec::new(rt.alloc());
            for edge in &ring.entries()[..count] {
                if edge.src == vertex {
                    want.push(
                        u64::from(edge.del) << 63 | u64::from(edge.src) << 31 | u64::from(edge.dst),
                    )?;
                }
            }
            assert_eq!(rt;
                words.as_slice(),
                want.as_slice(),
                "words of {vertex} in the first {count}"
            );
        }
    }
    Ok(())
}

#[test]
fn a_cleared_ring_has_only_what_comes_after(rt: HostRuntime) -> Result<(), Fail> {
    let mut ring = Ring::new(rt.alloc(), 1, 2)?;
    ring.push(add(1, 0), 1);
    ring.clear();
    assert_eq!(rt; ring.len(), 0);
    ring.push(add(1, 1), 1);
    let mut words = Vec::new(rt.alloc());
    ring.words_from(1, 1, &mut words)?;
    assert_eq!(rt; words.as_slice(), [0x8000_0001].as_slice());
    assert_eq!(rt; ring.entries(), [add(1, 1)].as_slice());
    Ok(())
}

#[test]
fn views_stay_while_entries_move_to_shards_and_file(rt: HostRuntime) -> Result<(), Fail> {
    let disk = MemDisk::new(rt.alloc(), b"", 400)?;
    let Some(store) = store_over(rt.alloc(), disk, 1, 3) else {
        return Err(Fail::new("not made"));
    };
    let mut session = store.session(1);
    assert_eq!(rt; session.vertices(), 8);
    assert_eq!(rt; session.opened(), 0);
    let Ok(first) = session.put(add(1, 2)) else {
        return Err(Fail::new("not put"));
    };
    let Ok(front) = session.view(0) else {
        return Err(Fail::new("no view"));
    };
    let Ok(second) = session.put(add(1, 3)) else {
        return Err(Fail::new("not put"));
    };
    let mut list = [9].to_vec(rt.alloc())?;
    assert_eq!(rt; session.neighbours(0, 1, &mut list), Ok(()));
    assert_eq!(rt; (first, front, second), (0, 1, 1));
    assert_eq!(rt; list.as_slice(), [2].as_slice());
    let finished = session.back().finish();
    assert_eq!(rt; finished.durable, 2);
    assert_eq!(rt; finished.stop, None);
    let mut bytes = Vec::new(rt.alloc());
    finished.disk.image(0, &mut bytes)?;
    assert_eq!(rt; bytes.len(), 16 + 13 + 13);
    Ok(())
}
