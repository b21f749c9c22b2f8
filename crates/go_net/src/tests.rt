// Worked rows: lists of neighbours and the words that came after them.

use crate::net;
use go_word::{Edge, ID_LIMIT, plain};
use std::alloc::Global;
use std::process::Abort;
use std::test::Fail;

// The word of an entry of the vertex 1.
fn word(rt: &impl Abort, del: bool, dst: u32) -> u64 {
    let edge = Edge { del, src: 1, dst };
    assert!(rt; u64::from(edge.src) < ID_LIMIT);
    assert!(rt; u64::from(edge.dst) < ID_LIMIT);
    plain(edge)
}

fn add(rt: &impl Abort, dst: u32) -> u64 {
    word(rt, false, dst)
}

fn del(rt: &impl Abort, dst: u32) -> u64 {
    word(rt, true, dst)
}

#[test]
fn a_deletion_takes_the_earliest_copy(rt: HostRuntime) -> Result<(), Fail> {
    let none: [u32; 0] = [];
    let mut out = [9].to_vec(rt.alloc())?;
    for (base, tail, want) in [
        ([].as_slice(), [].as_slice(), none.as_slice()),
        ([2, 3, 2].as_slice(), [].as_slice(), [2, 3, 2].as_slice()),
        (
            [2, 3, 2].as_slice(),
            [del(&rt, 2), add(&rt, 4)].as_slice(),
            [3, 2, 4].as_slice(),
        ),
        (
            [].as_slice(),
            [
                del(&rt, 2),
                add(&rt, 2),
                add(&rt, 2),
                add(&rt, 3),
                del(&rt, 2),
            ]
            .as_slice(),
            [2, 3].as_slice(),
        ),
    ] {
        net(rt.alloc(), base, tail, &mut out)?;
        assert_eq!(rt; out.as_slice(), want, "from {base:?}");
    }
    Ok(())
}

// A hundred copies each of two neighbours; deletions of the first, but for one copy, and of one that isn't there; then
// one addition of each. Beginning at a number that is small beside the words, or at a large one.
fn long_list(rt: &impl Abort, alloc: Global, least: u32) -> Result<(), Fail> {
    assert!(rt; least < 1_000_000);
    let mut base = Vec::new(alloc);
    for _ in 0..100u32 {
        base.push(least)?;
        base.push(least + 2)?;
    }
    let mut tail = Vec::new(alloc);
    for _ in 0..99u32 {
        tail.push(del(rt, least))?;
        tail.push(del(rt, least + 3))?;
    }
    tail.push(add(rt, least + 3))?;
    tail.push(add(rt, least))?;
    let mut out = Vec::new(alloc);
    net(alloc, &base, &tail, &mut out)?;
    // The last copy of the first in the base stands between the last two of the second, and the new ones come behind.
    assert_eq!(rt; out.len(), 103);
    let want = [least + 2, least, least + 2, least + 3, least];
    assert_eq!(rt; out.get(98..), Some(want.as_slice()));
    Ok(())
}

#[test]
fn a_long_list_is_folded_as_a_short_one(rt: HostRuntime) -> Result<(), Fail> {
    long_list(&rt, rt.alloc(), 5)
}

#[test]
fn a_long_list_of_great_numbers_is_folded_as_a_short_one(rt: HostRuntime) -> Result<(), Fail> {
    long_list(&rt, rt.alloc(), 999_000)
}
