// Whole runs over a disk in memory, at rows that were worked out by hand.

use crate::fixture::{Ended, FILE, REPLIES, SCRIPT, SMALL, run_on, run_small, shelf_with};
use crate::run_with;
use go_disk::MemDisk;
use go_io::{MemSink, NoGate};
use go_text::Text;
use std::test::Fail;

#[test]
fn run_leaves_a_file_of_its_entries(rt: HostRuntime) -> Result<(), Fail> {
    let alloc = rt.alloc();
    let ended = run_on(&rt, rt.alloc(), SCRIPT, b"")?;
    assert_eq!(rt; ended.number, 0);
    assert_eq!(rt; ended.sink.bytes(), REPLIES);
    assert_eq!(rt; ended.bytes(alloc)?.as_slice(), FILE.as_slice());
    let empty = run_on(&rt, rt.alloc(), b"", b"")?;
    assert_eq!(rt; empty.number, 0);
    assert_eq!(rt; empty.sink.bytes(), b"session 1\n".as_slice());
    let made = empty.bytes(alloc)?;
    assert_eq!(rt; made.len(), 16);
    assert_eq!(rt; &made[..15], &FILE[..15]);
    assert_eq!(rt; made[15], 0);
    Ok(())
}

#[test]
fn run_goes_on_from_what_an_earlier_one_left(rt: HostRuntime) -> Result<(), Fail> {
    let alloc = rt.alloc();
    let first = run_on(
        &rt,
        rt.alloc(),
        b"add 1 2\nadd 1 2\nadd 1 3\ndel 1 2\nadd 0 1\n",
        b"",
    )?;
    let left = first.bytes(alloc)?;
    let cases: [(&[u8], &[u8]); 3] = [
        (b"add 1 1", b"session 1\nadd 5\n"),
        (
            b"view 0\nneigh 0 1\ndel 1 3\nview 1\nneigh 1 1\nneigh 0 1\n",
            b"session 1\nview 0 at 5\nneigh 1: 2 3\ndel 5\nview 1 at 6\nneigh 1: 2\nneigh 1: 2 3\n",
        ),
        (b"", b"session 1\n"),
    ];
    for (script, want) in cases {
        let second = run_on(&rt, rt.alloc(), script, &left)?;
        assert_eq!(rt; second.number, 0);
        assert_eq!(rt; second.sink.bytes(), want);
    }
    Ok(())
}

#[test]
fn deletion_removes_the_earliest_that_is_left(rt: HostRuntime) -> Result<(), Fail> {
    let cases: [(&[u8], &[u8]); 2] = [
        (
            b"add 1 2\nadd 1 2\nadd 1 3\ndel 1 2\nview 0\nneigh 0 1",
            b"session 1\nadd 0\nadd 1\nadd 2\ndel 3\nview 0 at 4\nneigh 1: 2 3\n",
        ),
        (
            b"del 1 2\nadd 1 2\nview 0\nneigh 0 1",
            b"session 1\ndel 0\nadd 1\nview 0 at 2\nneigh 1: 2\n",
        ),
    ];
    for (script, want) in cases {
        let ended = run_on(&rt, rt.alloc(), script, b"")?;
        assert_eq!(rt; ended.number, 0);
        assert_eq!(rt; ended.sink.bytes(), want);
    }
    Ok(())
}

#[test]
fn closed_gate_hides_its_block_and_any_other_byte_opens_it(rt: HostRuntime) -> Result<(), Fail> {
    for (gate, want) in [
        (0, b"session 1\nview 0 at 0\n".as_slice()),
        (7, b"session 1\nview 0 at 1\n".as_slice()),
    ] {
        let mut bytes = FILE;
        bytes[15] = gate;
        let ended = run_on(&rt, rt.alloc(), b"view 0", &bytes)?;
        assert_eq!(rt; ended.sink.bytes(), want);
    }
    Ok(())
}

#[test]
fn refusal_leaves_disk_and_sink_untouched(rt: HostRuntime) -> Result<(), Fail> {
    let alloc = rt.alloc();
    let mut short = [0; 40];
    short[..16].copy_from_slice(&FILE[..16]);
    short[16] = 9;
    let mut other = FILE;
    other[11] = 16;
    let cases: [(&[u8], &[u8], u8, &[u8]); 4] = [
        (b"add 8 0", &FILE, 2, b"graphone: a.gs: line 1: vertex\n"),
        (b"add 1 1", &short, 6, b"graphone: not a log: short at 16\n"),
        (
            b"add 1 1",
            b"no log at all, but 28 bytes.",
            6,
            b"graphone: not a log: magic at 1\n",
        ),
        (
            b"add 1 1",
            &other,
            7,
            b"graphone: log has 16 vertices, asked 8\n",
        ),
    ];
    for (script, bytes, number, line) in cases {
        let ended = run_on(&rt, rt.alloc(), script, bytes)?;
        assert_eq!(rt; ended.number, number);
        assert_eq!(rt; ended.line.as_slice(), line);
        assert_eq!(rt; ended.sink.bytes(), b"".as_slice());
        assert_eq!(rt; ended.bytes(alloc)?.as_slice(), bytes);
    }
    Ok(())
}

#[test]
fn disk_that_stops_is_told_and_keeps_what_was_shown(rt: HostRuntime) -> Result<(), Fail> {
    let alloc = rt.alloc();
    for after in 0..13 {
        let ended = run_small(
            &rt,
            rt.alloc(),
            SCRIPT,
            MemDisk::stopping(alloc, b"", after, 4096)?,
        )?;
        let (number, text) = if after < 8 {
            (8, b"".as_slice())
        } else if after < 12 {
            (8, b"session 1\n".as_slice())
        } else {
            (0, REPLIES)
        };
        assert_eq!(rt; ended.number, number, "after {after}");
        assert_eq!(rt; ended.sink.bytes(), text, "after {after}");
        for pick in 0..8 {
            let mut image = Vec::new(alloc);
            ended.disk.image(pick, &mut image)?;
            let again = run_on(&rt, rt.alloc(), b"view 0", &image)?;
            assert_eq!(rt; again.number, 0, "after {after}, image {pick}");
            assert!(rt;
                again.sink.bytes() == b"session 1\nview 0 at 1\n".as_slice()
                    || number == 8 && again.sink.bytes() == b"session 1\nview 0 at 0\n".as_slice(),
                "after {after}, image {pick}"
            );
        }
    }
    let stopped = run_small(&rt, rt.alloc(), b"", MemDisk::stopping(alloc, b"", 3, 99)?)?;
    assert_eq!(rt;
        stopped.line.as_slice(),
        b"graphone: disk fault\n".as_slice()
    );
    Ok(())
}

#[test]
fn sink_that_fails_leaves_the_entries_on_the_disk(rt: HostRuntime) -> Result<(), Fail> {
    let alloc = rt.alloc();
    let mut shelf = shelf_with(alloc, SCRIPT)?;
    let mut sink = MemSink::new(alloc, 5, 5)?;
    let names = [Text::of(alloc, "a.gs")?];
    let disk = MemDisk::new(alloc, b"", 99)?;
    let outcome = run_with(
        &rt, alloc, SMALL, &names, &mut shelf, &mut sink, disk, &NoGate,
    );
    let ended = Ended::of(alloc, outcome, sink)?;
    assert_eq!(rt; ended.number, 9);
    assert_eq!(rt; ended.sink.bytes(), b"sessi".as_slice());
    assert_eq!(rt; ended.bytes(alloc)?.as_slice(), FILE.as_slice());
    Ok(())
}
