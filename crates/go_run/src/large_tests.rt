// Whole runs over lists of edges that are longer than the ring, at rows that were worked out by hand.

use crate::fixture::{repeated, run_files};
use go_text::{put_number, put_text};
use std::alloc::{AllocError, Global};
use std::test::Fail;

const ONE: &[&str] = &[
    "drive",
    "--vertices",
    "8",
    "--ring",
    "128",
    "--shards",
    "2",
    "a.gs",
];

// Three hundred edges from vertex 0, to each vertex in turn.
fn laps(alloc: Global) -> Result<Vec<u8>, AllocError> {
    let mut text = Vec::new(alloc);
    for i in 0..300u64 {
        put_text(&mut text, b"0 ")?;
        put_number(&mut text, i % 8)?;
        put_text(&mut text, b"\n")?;
    }
    Ok(text)
}

#[test]
fn views_outlive_a_load_and_a_compaction(rt: HostRuntime) -> Result<(), Fail> {
    let alloc = rt.alloc();
    let big = repeated(alloc, b"1 4\n", 1000)?;
    let script = b"add 1 2\nadd 1 3\nview 0\nload big.txt\nsync\ncompact\nneigh 0 1\n";
    let ended = run_files(
        &rt,
        rt.alloc(),
        ONE,
        &[("a.gs", script.as_slice()), ("big.txt", &big)],
    )?;
    assert_eq!(rt; ended.number, 0);
    assert_eq!(rt;
        ended.sink.bytes(),
        b"session 1\nadd 0\nadd 1\nview 0 at 2\nload big.txt: 1000 edges, last 1001\nsync 1002\ncompact\nneigh 1: 2 3\n".as_slice()
    );
    Ok(())
}

#[test]
fn a_ring_is_full_after_as_many_entries_as_it_has_slots(rt: HostRuntime) -> Result<(), Fail> {
    let alloc = rt.alloc();
    let cases: [(usize, &[u8]); 2] = [
        (127, b"add 126\noffer 127\nsync 128\noffer 128\n"),
        (128, b"add 127\nbusy 128 0\nsync 128\noffer 128\n"),
    ];
    for (count, want) in cases {
        let mut script = repeated(alloc, b"add 0 1\n", count)?;
        put_text(&mut script, b"offer 0 2\nsync\noffer 0 2\n")?;
        let ended = run_files(&rt, rt.alloc(), ONE, &[("a.gs", &script)])?;
        assert_eq!(rt; ended.number, 0);
        assert_eq!(rt; ended.sink.bytes().ends_with(want), true);
    }
    Ok(())
}

#[test]
fn a_stream_goes_on_from_the_file_to_the_ring(rt: HostRuntime) -> Result<(), Fail> {
    let alloc = rt.alloc();
    let laps = laps(alloc)?;
    let script = b"stream 0\nload laps.txt\nview 0\n";
    let taken = run_files(
        &rt,
        rt.alloc(),
        ONE,
        &[("a.gs", script.as_slice()), ("laps.txt", &laps)],
    )?;
    assert_eq!(rt;
        taken.line.as_slice(),
        b"graphone: a.gs: line 3: place\n".as_slice()
    );
    let script =
        b"stream 0\nload laps.txt\nupdate 0 100\nupdate 0 100\nupdate 0 100\nupdate 0 100\nview 1\ndegree 1 0\nhop 1 0\n";
    let ended = run_files(
        &rt,
        rt.alloc(),
        ONE,
        &[("a.gs", script.as_slice()), ("laps.txt", &laps)],
    )?;
    assert_eq!(rt; ended.number, 0);
    let mut want = Vec::new(alloc);
    put_text(
        &mut want,
        b"session 1\nstream 0 at 0\nload laps.txt: 300 edges, last 299\n",
    )?;
    for (first, behind) in [(0u64, 100u64), (100, 200), (200, 300)] {
        put_text(&mut want, b"update 0 ")?;
        put_number(&mut want, first)?;
        put_text(&mut want, b"..")?;
        put_number(&mut want, behind)?;
        put_text(&mut want, b"\n")?;
        for i in first..behind {
            put_text(&mut want, b"+ 0 ")?;
            put_number(&mut want, i % 8)?;
            put_text(&mut want, b"\n")?;
        }
    }
    put_text(
        &mut want,
        b"update 0 300..300\nview 1 at 300\ndegree 0: 300\nhop 0: 0 1 2 3 4 5 6 7\n",
    )?;
    assert_eq!(rt; ended.sink.bytes(), want.as_slice());
    Ok(())
}

#[test]
fn generated_entries_are_the_same_each_time(rt: HostRuntime) -> Result<(), Fail> {
    let words = [
        "gen",
        "--edges",
        "8",
        "--seed",
        "1",
        "--vertices",
        "8",
        "--ring",
        "128",
    ];
    let one = run_files(&rt, rt.alloc(), &words, &[])?;
    assert_eq!(rt; one.number, 0);
    let begins = b"session 1\nload @gen: 8 edges, last 7\nview 0 at 8\nrank:";
    assert_eq!(rt; one.sink.bytes().starts_with(begins), true);
    let two = run_files(&rt, rt.alloc(), &words, &[])?;
    assert_eq!(rt; one.sink.bytes(), two.sink.bytes());
    Ok(())
}
