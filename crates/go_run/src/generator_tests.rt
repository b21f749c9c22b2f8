// Whole runs of `gen`, at entries that another program drew from the same numbers.

use crate::fixture::{drive_small, run_files, run_files_on};
use go_disk::MemDisk;
use std::test::Fail;

// For the seed 1 the eight entries over eight vertices are 6 6, 1 0, 3 0, 0 0, 4 0, 3 4, 7 2 and the deletion of 0 0;
// for the seed 2 they are 0 5, 1 6, 4 3, 1 3, 4 0, 7 2, 5 6 and the deletion of 1 3.
const ONE: &[u8] =
    b"session 1\nload @gen: 8 edges, last 7\nview 0 at 8\nrank: 3=2 1=1 4=1 6=1 7=1\n\
bfs 0: 1 none 7\nstream 1 at 8\nsync 8\ncompact\ndegree 0: 0\n";

const TWO: &[u8] =
    b"session 1\nload @gen: 8 edges, last 7\nview 0 at 8\nrank: 4=2 0=1 1=1 5=1 7=1\n\
bfs 0: 1 1 1 none 5\nstream 1 at 8\nsync 8\ncompact\ndegree 0: 1\n";

const WORDS_ONE: &[&str] = &[
    "gen",
    "--edges",
    "8",
    "--seed",
    "1",
    "--vertices",
    "8",
    "--ring",
    "128",
];

const WORDS_TWO: &[&str] = &["gen", "--seed=2", "--vertices=8", "--shards=3", "--edges=8"];

// What a run asks of the log that `gen` has left, and is told.
const ASKS: &[u8] = b"view 0\nneigh 0 0\nneigh 0 1\nneigh 0 3\nneigh 0 4\nneigh 0 6\nneigh 0 7\n";

const TOLD: &[u8] =
    b"session 1\nview 0 at 8\nneigh 0:\nneigh 1: 0\nneigh 3: 0 4\nneigh 4: 0\nneigh 6: 6\nneigh 7: 2\n";

#[test]
fn generated_entries_are_those_of_another_program(rt: HostRuntime) -> Result<(), Fail> {
    let alloc = rt.alloc();
    for (words, want) in [(WORDS_ONE, ONE), (WORDS_TWO, TWO), (WORDS_ONE, ONE)] {
        let ended = run_files(&rt, rt.alloc(), words, &[])?;
        assert_eq!(rt; ended.line.as_slice(), b"".as_slice());
        assert_eq!(rt; ended.number, 0);
        assert_eq!(rt; ended.sink.bytes(), want);
        assert_eq!(rt; ended.bytes(alloc)?.len(), 16 + 5 + 8 * 8);
    }
    Ok(())
}

#[test]
fn a_log_of_generated_entries_is_gone_on_with(rt: HostRuntime) -> Result<(), Fail> {
    let alloc = rt.alloc();
    let left = run_files(&rt, rt.alloc(), WORDS_ONE, &[])?.bytes(alloc)?;
    let disk = MemDisk::new(alloc, &left, 4096)?;
    let asked = run_files_on(
        &rt,
        rt.alloc(),
        &drive_small(alloc, &["a"])?,
        &[("a", ASKS)],
        disk,
    )?;
    assert_eq!(rt; asked.sink.bytes(), TOLD);
    let disk = MemDisk::new(alloc, &left, 4096)?;
    let again = run_files_on(&rt, rt.alloc(), WORDS_ONE, &[], disk)?;
    assert_eq!(rt;
        again.sink.bytes(),
        b"session 1\nload @gen: 8 edges, last 15\nview 0 at 16\nrank: 3=4 1=2 4=2 6=2 7=2\n\
          bfs 0: 1 none 7\nstream 1 at 16\nsync 16\ncompact\ndegree 0: 0\n"
            .as_slice()
    );
    Ok(())
}

#[test]
fn what_generating_needs_is_asked_for(rt: HostRuntime) -> Result<(), Fail> {
    let cases: [&[&str]; 12] = [
        &["gen"],
        &["gen", "--edges", "8"],
        &["gen", "--seed", "1"],
        &["gen", "--edges", "--seed", "1"],
        &["gen", "--seed", "1", "--edges"],
        &["gen", "--edges=", "--seed=1"],
        &["gen", "--edges=8", "--seed="],
        &["gen", "--edges=8", "--seed", "-1"],
        &["gen", "--edges=8", "--edges=8", "--seed=1"],
        &["gen", "--edges=8", "--seed=1", "--seed", "1"],
        &["gen", "--edges=8x", "--seed=1"],
        &["gen", "--edges=8", "--seed=1", ""],
    ];
    let alloc = rt.alloc();
    for words in cases {
        let ended = run_files(&rt, rt.alloc(), words, &[("", b"")])?;
        assert_eq!(rt;
            ended.line.as_slice(),
            b"graphone: bad arguments\n".as_slice()
        );
        assert_eq!(rt; ended.number, 1);
        assert_eq!(rt; ended.sink.bytes(), b"".as_slice());
        assert_eq!(rt; ended.bytes(alloc)?.as_slice(), b"".as_slice());
    }
    Ok(())
}
