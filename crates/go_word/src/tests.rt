// Worked rows: neighbours and raw counts of short logs, and words in hexadecimal.
ghost use Rattle.go_word.specs.Word.{IsStorable};

use crate::{
    Edge, Edges, ID_LIMIT, blank, decode, encode, matched, neighbours_of, plain, raw_of, read_plain,
};
use std::process::Abort;
use std::test::Fail;

// The slots of the ring that the rows speak of.
const SLOTS: u64 = 128;

// The largest id that a word can hold.
const LARGEST: u32 = 0x7FFF_FFFF;

fn add(src: u32, dst: u32) -> Edge {
    Edge {
        del: false,
        src,
        dst,
    }
}

fn del(src: u32, dst: u32) -> Edge {
    Edge {
        del: true,
        src,
        dst,
    }
}

#[test]
fn a_deletion_takes_the_earliest_copy(rt: HostRuntime) -> Result<(), Fail> {
    let twice = [add(1, 2), add(1, 2), add(1, 3), del(1, 2)];
    let early = [del(1, 2), add(1, 2)];
    let others = [
        add(1, 2),
        add(2, 1),
        del(2, 2),
        add(1, 4),
        add(1, 2),
        del(1, 2),
    ];
    let mut out = [9].to_vec(rt.alloc())?;
    for (log, vertex, want, count) in [
        (twice.as_slice(), 1, [2, 3].as_slice(), 4),
        (twice.as_slice(), 2, [].as_slice(), 0),
        (early.as_slice(), 1, [2].as_slice(), 2),
        (others.as_slice(), 1, [4, 2].as_slice(), 4),
        (others.as_slice(), 2, [1].as_slice(), 2),
    ] {
        neighbours_of(log, vertex, &mut out)?;
        assert_eq!(rt; out.as_slice(), want, "neighbours of {vertex}");
        assert_eq!(rt; raw_of(log, vertex), count, "entries of {vertex}");
    }
    Ok(())
}

#[test]
fn words_in_a_ring(rt: HostRuntime) {
    for (edge, position, want) in [
        (add(3, 5), 0, 0x4000_0001_8000_0005),
        (add(3, 5), 127, 0x4000_0001_8000_0005),
        (add(3, 5), 128, 0x0000_0001_8000_0005),
        (add(3, 5), 256, 0x4000_0001_8000_0005),
        (del(3, 5), 0, 0xC000_0001_8000_0005),
        (del(5, 3), 128, 0x8000_0002_8000_0003),
        (add(LARGEST, 0), 128, 0x3FFF_FFFF_8000_0000),
        (add(0, LARGEST), 128, 0x0000_0000_7FFF_FFFF),
        (del(LARGEST, LARGEST), 0, 0xFFFF_FFFF_FFFF_FFFF),
    ] {
        assert_storable(&rt, edge);
        let word = encode(edge, position, SLOTS);
        assert_eq!(rt; word, want, "{edge:?} at {position}");
        assert_eq!(rt; decode(word), edge, "{word:x}");
    }
}

#[test]
fn laps_that_a_word_matches(rt: HostRuntime) {
    for (position, unmatched, holds) in [
        (0, 0x0000_0000_0000_0000, true),
        (127, 0x0000_0000_0000_0000, true),
        (128, 0x4000_0000_0000_0000, false),
        (255, 0x4000_0000_0000_0000, false),
        (256, 0x0000_0000_0000_0000, true),
    ] {
        assert_eq!(rt; blank(position, SLOTS), unmatched, "at {position}");
        assert_eq!(rt;
            matched(unmatched, position, SLOTS),
            false,
            "blank at {position}"
        );
        assert_eq!(rt;
            matched(0xC000_0001_8000_0005, position, SLOTS),
            holds,
            "at {position}"
        );
    }
}

#[test]
fn words_of_a_file(rt: HostRuntime) {
    for (edge, want) in [
        (add(3, 5), 0x0000_0001_8000_0005),
        (del(5, 3), 0x8000_0002_8000_0003),
        (add(LARGEST, LARGEST), 0x3FFF_FFFF_FFFF_FFFF),
        (del(0, 0), 0x8000_0000_0000_0000),
    ] {
        assert_storable(&rt, edge);
        assert_eq!(rt; plain(edge), want, "{edge:?}");
    }
    for (word, vertices, want) in [
        (0x0000_0001_8000_0005, 6, Some(add(3, 5))),
        (0x0000_0001_8000_0005, 5, None),
        (0x8000_0002_8000_0003, 6, Some(del(5, 3))),
        (0x8000_0002_8000_0003, 5, None),
        (0x4000_0001_8000_0005, 6, None),
        (0x0000_0000_0000_0000, 0, None),
        (
            0xBFFF_FFFF_FFFF_FFFF,
            0x8000_0000,
            Some(del(LARGEST, LARGEST)),
        ),
        (0xFFFF_FFFF_FFFF_FFFF, 0xFFFF_FFFF, None),
    ] {
        assert_eq!(rt;
            read_plain(word, vertices),
            want,
            "{word:x} below {vertices}"
        );
    }
}

#[test]
fn entries_are_kept_and_given_back(rt: HostRuntime) -> Result<(), Fail> {
    let copied = Edges::of(rt.alloc(), &[add(1, 2), del(2, 1)])?;
    assert_eq!(rt; copied.as_slice(), [add(1, 2), del(2, 1)].as_slice());
    let edges = Edges::from_vec([add(1, 2), del(2, 1)].to_vec(rt.alloc())?);
    assert_eq!(rt; edges.as_slice().len(), 2);
    let entries = edges.into_vec();
    assert_eq!(rt; entries.as_slice(), [add(1, 2), del(2, 1)].as_slice());
    Ok(())
}

// That a word can hold the edge, so that what follows may put it into one.
fn assert_storable(rt: &impl Abort, edge: Edge)
    ensures { IsStorable edge }
{
    assert!(rt; u64::from(edge.src) < ID_LIMIT);
    assert!(rt; u64::from(edge.dst) < ID_LIMIT);
}
