// Whole runs over bad input: scripts and edge files that are refused, in their order, and texts that can't be read.

use crate::fixture::{Ended, FILE, drive_small, run_files_on, run_from, shelf_of};
use go_disk::MemDisk;
use go_io::MemSink;
use std::alloc::{AllocError, Global};
use std::sync::Wait;
use std::test::Fail;
use std::thread::Threads;

// A run of `load x` over the bytes of `x`, behind a log of one entry.
fn load_of<R: Threads + Wait + Sync>(
    rt: &R,
    alloc: Global,
    bytes: &[u8],
) -> Result<Ended, AllocError> {
    let words = drive_small(alloc, &["a"])?;
    let disk = MemDisk::new(alloc, &FILE, 4096)?;
    run_files_on(rt, alloc, &words, &[("a", b"load x\n"), ("x", bytes)], disk)
}

// The magic, three entries and a byte more.
const BINARY: [u8; 34] =
    *b"GRONEBIN\x02\x00\x00\x80\x00\x00\x00\x00\x02\x00\x00\x80\x00\x00\x00\x80\x03\x00\x00\x80\x00\x00\x00\x00!!";

#[test]
fn a_binary_file_may_end_behind_each_entry_and_nowhere_else(rt: HostRuntime) -> Result<(), Fail> {
    let alloc = rt.alloc();
    let mut text = Vec::new(alloc);
    for byte in BINARY {
        let (line, replies) = match text.len() {
            0 | 8 => (b"".as_slice(), b"session 1\nload x: 0 edges\n".as_slice()),
            16 => (
                b"".as_slice(),
                b"session 1\nload x: 1 edges, last 1\n".as_slice(),
            ),
            24 => (
                b"".as_slice(),
                b"session 1\nload x: 2 edges, last 2\n".as_slice(),
            ),
            32 => (
                b"".as_slice(),
                b"session 1\nload x: 3 edges, last 3\n".as_slice(),
            ),
            1..8 => (b"graphone: x: line 1: count\n".as_slice(), b"".as_slice()),
            9..16 => (b"graphone: x: line 1: short\n".as_slice(), b"".as_slice()),
            17..24 => (b"graphone: x: line 2: short\n".as_slice(), b"".as_slice()),
            25..32 => (b"graphone: x: line 3: short\n".as_slice(), b"".as_slice()),
            _ => (b"graphone: x: line 4: short\n".as_slice(), b"".as_slice()),
        };
        let ended = load_of(&rt, rt.alloc(), &text)?;
        assert_eq!(rt; ended.line.as_slice(), line, "{} bytes", text.len());
        assert_eq!(rt; ended.sink.bytes(), replies, "{} bytes", text.len());
        text.push(byte)?;
    }
    Ok(())
}

#[test]
fn first_fault_of_an_edge_file_is_told(rt: HostRuntime) -> Result<(), Fail> {
    let cases: [(&[u8], &[u8]); 20] = [
        (b"1 2 3", b"graphone: x: line 1: count\n"),
        (b"1", b"graphone: x: line 1: count\n"),
        (b"-", b"graphone: x: line 1: count\n"),
        (b"9 x 1", b"graphone: x: line 1: count\n"),
        (b"1 x", b"graphone: x: line 1: number\n"),
        (b"x 9", b"graphone: x: line 1: number\n"),
        (b"--1 2", b"graphone: x: line 1: number\n"),
        (b"1 -2", b"graphone: x: line 1: number\n"),
        (b"1 18446744073709551616", b"graphone: x: line 1: number\n"),
        (b"1 18446744073709551615", b"graphone: x: line 1: vertex\n"),
        (b"- 1 9", b"graphone: x: line 1: vertex\n"),
        (b"9 x", b"graphone: x: line 1: vertex\n"),
        (b"8 1", b"graphone: x: line 1: vertex\n"),
        (
            b"# 1\r\n\r\n\t \n1\t2\r\n-1 2\n1 8\n9",
            b"graphone: x: line 6: vertex\n",
        ),
        (b" GRONEBIN", b"graphone: x: line 1: count\n"),
        // A word with the rotation, one with a source that is no vertex, one with both, and the same cut later.
        (
            b"GRONEBIN\x02\x00\x00\x80\x00\x00\x00\x40",
            b"graphone: x: line 1: number\n",
        ),
        (
            b"GRONEBIN\x02\x00\x00\x00\x04\x00\x00\x00",
            b"graphone: x: line 1: vertex\n",
        ),
        (
            b"GRONEBIN\x02\x00\x00\x00\x04\x00\x00\x40\x02",
            b"graphone: x: line 1: number\n",
        ),
        (
            b"GRONEBIN\x08\x00\x00\x80\x00\x00\x00\x00\x02\x00",
            b"graphone: x: line 1: vertex\n",
        ),
        (
            b"GRONEBIN\x07\x00\x00\x80\x00\x00\x00\x00\x02\x00\x00\x80\x00\x00\x00\x40\x02",
            b"graphone: x: line 2: number\n",
        ),
    ];
    let alloc = rt.alloc();
    for (bytes, line) in cases {
        let ended = load_of(&rt, rt.alloc(), bytes)?;
        assert_eq!(rt; ended.line.as_slice(), line);
        assert_eq!(rt; ended.number, 2);
        assert_eq!(rt; ended.sink.bytes(), b"".as_slice());
        assert_eq!(rt; ended.bytes(alloc)?.as_slice(), FILE.as_slice());
    }
    Ok(())
}

// The fetch that fails, the texts of `a`, `b` and `x`, the status and the line. The scripts are fetched first, then `x`,
// and then what isn't there.
type Fetch = (
    u64,
    &'static [u8],
    &'static [u8],
    &'static [u8],
    u8,
    &'static [u8],
);

#[test]
fn first_text_that_is_not_right_is_told(rt: HostRuntime) -> Result<(), Fail> {
    let cases: [Fetch; 11] = [
        (0, b"fly\n", b"fly\n", b"", 5, b"graphone: a: read fault\n"),
        (
            1,
            b"load x\n",
            b"fly\n",
            b"1",
            5,
            b"graphone: b: read fault\n",
        ),
        (1, b"load none\n", b"", b"", 5, b"graphone: b: read fault\n"),
        (1, b"add 1\n", b"", b"", 2, b"graphone: a: line 1: count\n"),
        (
            2,
            b"load x\nload none\n",
            b"",
            b"1",
            5,
            b"graphone: x: read fault\n",
        ),
        (
            2,
            b"load x\n",
            b"load none\ndrop 0\n",
            b"1",
            2,
            b"graphone: b: line 2: place\n",
        ),
        (
            3,
            b"load x\n",
            b"load x\nload none\n",
            b"1 2",
            5,
            b"graphone: none: read fault\n",
        ),
        (
            3,
            b"load x\n",
            b"load x\nload none\n",
            b"1 8",
            2,
            b"graphone: x: line 1: vertex\n",
        ),
        (
            9,
            b"load x\n",
            b"load x\nload none\n",
            b"1 2",
            3,
            b"graphone: none: not there\n",
        ),
        (
            9,
            b"until 9\n",
            b"load x\n",
            b"1 2 3",
            2,
            b"graphone: x: line 1: count\n",
        ),
        (
            9,
            b"load \xff\n",
            b"load x\n",
            b"1 2 3",
            2,
            b"graphone: a: line 1: name\n",
        ),
    ];
    let alloc = rt.alloc();
    for (fails, one, two, edges, number, line) in cases {
        let mut shelf = shelf_of(alloc, &[("a", one), ("b", two), ("x", edges)])?;
        shelf.fail(fails)?;
        let words = drive_small(alloc, &["a", "b"])?;
        let sink = MemSink::new(alloc, 99, 99)?;
        let disk = MemDisk::new(alloc, &FILE, 4096)?;
        let ended = run_from(&rt, rt.alloc(), &words, shelf, sink, disk)?;
        assert_eq!(rt; ended.line.as_slice(), line);
        assert_eq!(rt; ended.number, number);
        assert_eq!(rt; ended.sink.bytes(), b"".as_slice());
        assert_eq!(rt; ended.bytes(alloc)?.as_slice(), FILE.as_slice());
    }
    Ok(())
}

#[test]
fn nine_scripts_are_one_too_many(rt: HostRuntime) -> Result<(), Fail> {
    let alloc = rt.alloc();
    let cases: [(&[&str], u8, &[u8]); 2] = [
        (
            &["a", "a", "a", "a", "a", "a", "a", "a", "a"],
            1,
            b"graphone: bad arguments\n",
        ),
        (
            &["a", "a", "a", "a", "a", "a", "a", "a", "none"],
            1,
            b"graphone: bad arguments\n",
        ),
    ];
    for (files, number, line) in cases {
        let disk = MemDisk::new(alloc, &FILE, 4096)?;
        let ended = run_files_on(
            &rt,
            rt.alloc(),
            &drive_small(alloc, files)?,
            &[("a", b"add 1 1\n")],
            disk,
        )?;
        assert_eq!(rt; ended.line.as_slice(), line);
        assert_eq!(rt; ended.number, number);
        assert_eq!(rt; ended.sink.bytes(), b"".as_slice());
        assert_eq!(rt; ended.bytes(alloc)?.as_slice(), FILE.as_slice());
    }
    Ok(())
}

// 1,048,576 entries that are loaded 65 times are 68,157,440.
#[test]
fn entries_of_lists_are_counted_each_time(rt: HostRuntime) -> Result<(), Fail> {
    let alloc = rt.alloc();
    let mut many = Vec::new(alloc);
    many.extend_from_slice(b"GRONEBIN")?;
    for _ in 0..1_048_576 {
        many.extend_from_slice(b"\x02\x00\x00\x80\x00\x00\x00\x00")?;
    }
    let mut script = Vec::new(alloc);
    for _ in 0..65 {
        script.extend_from_slice(b"load many.bin\n")?;
    }
    let disk = MemDisk::new(alloc, &FILE, 4096)?;
    let texts = [("a", script.as_slice()), ("many.bin", many.as_slice())];
    let ended = run_files_on(&rt, rt.alloc(), &drive_small(alloc, &["a"])?, &texts, disk)?;
    assert_eq!(rt;
        ended.line.as_slice(),
        b"graphone: too much: 68157440 of 67108864\n".as_slice()
    );
    assert_eq!(rt; ended.number, 4);
    assert_eq!(rt; ended.bytes(alloc)?.as_slice(), FILE.as_slice());
    Ok(())
}
