// Whole runs of two sessions over a disk that stops, and updates that read from it.

use crate::fixture::{Ended, drive_small, repeated, run_files, run_files_on};
use go_disk::MemDisk;
use std::alloc::{AllocError, Global};
use std::test::Fail;

// Three hundred edges from vertex 0, to each vertex in turn.
fn laps(alloc: Global) -> Result<Vec<u8>, AllocError> {
    let mut text = Vec::new(alloc);
    for i in 0..300u64 {
        let line = format!(in alloc; "0 {}\n", i % 8)?;
        text.extend_from_slice(line.as_bytes())?;
    }
    Ok(text)
}

// The same as an update shows them, from the first one that is asked for up to the end.
fn shown_from(alloc: Global, first: u64) -> Result<Vec<u8>, AllocError> {
    let mut text = Vec::new(alloc);
    for i in first..300 {
        let line = format!(in alloc; "+ 0 {}\n", i % 8)?;
        text.extend_from_slice(line.as_bytes())?;
    }
    Ok(text)
}

// Two blocks have left the ring then, and 44 entries are in it.
#[test]
fn one_update_gives_blocks_of_the_file_and_the_ring(rt: HostRuntime) -> Result<(), Fail> {
    let alloc = rt.alloc();
    let words = drive_small(alloc, &["a", "b"])?;
    let laps = laps(alloc)?;
    let cases: [(&[u8], &[u8], u64); 2] = [
        (
            b"stream 0\nuntil 300\nupdate 0 65536\nupdate 0 9\n",
            b"session 1\nstream 0 at 0\nuntil 300\nupdate 0 0..300\n",
            0,
        ),
        (
            b"stream 0\nuntil 300\nupdate 0 1\nupdate 0 65536\nupdate 0 9\n",
            b"session 1\nstream 0 at 0\nuntil 300\nupdate 0 0..1\n+ 0 0\nupdate 0 1..300\n",
            1,
        ),
    ];
    for (script, begins, first) in cases {
        let texts = [
            ("a", script),
            ("b", b"load e\n".as_slice()),
            ("e", laps.as_slice()),
        ];
        let ended = run_files(&rt, rt.alloc(), &words, &texts)?;
        let mut want = Vec::new(alloc);
        want.extend_from_slice(begins)?;
        want.extend_from_slice(&shown_from(alloc, first)?)?;
        want.extend_from_slice(b"update 0 300..300\nsession 2\nload e: 300 edges, last 299\n")?;
        assert_eq!(rt; ended.number, 0);
        assert_eq!(rt; ended.sink.bytes(), want.as_slice());
    }
    Ok(())
}

// Two scripts whose entries come by turns: the first two are made durable by the `sync`, the others at the end.
const ONE: &[u8] = b"add 0 1\nsync\nadd 0 2\nview 0\n";

const TWO: &[u8] = b"add 1 2\nadd 1 3\nview 0\nneigh 0 1\n";

// What is left of an image, told by a run that only asks.
fn told_by(ended: &Ended) -> Option<u64> {
    let cases: [(u64, &[u8]); 3] = [
        (0, b"session 1\nview 0 at 0\nneigh 0:\nneigh 1:\n"),
        (2, b"session 1\nview 0 at 2\nneigh 0: 1\nneigh 1: 2\n"),
        (4, b"session 1\nview 0 at 4\nneigh 0: 1 2\nneigh 1: 2 3\n"),
    ];
    for (count, text) in cases {
        if ended.number == 0 && ended.sink.bytes() == text {
            return Some(count);
        }
    }
    None
}

// Making the file takes eight calls and each block four, the third of which opens its gate: until that is stable an image
// may have the block or not. The replies are cut at what is stable.
#[test]
fn disk_that_stops_cuts_the_replies_of_both_sessions(rt: HostRuntime) -> Result<(), Fail> {
    let alloc = rt.alloc();
    let words = drive_small(alloc, &["a", "b"])?;
    let asking = drive_small(alloc, &["c"])?;
    for after in 0..18 {
        let disk = MemDisk::stopping(alloc, b"", after, 4096)?;
        let ended = run_files_on(&rt, rt.alloc(), &words, &[("a", ONE), ("b", TWO)], disk)?;
        let (number, text, least, most) = match after {
            0..8 => (8, b"".as_slice(), 0, 0),
            8..10 => (8, b"session 1\nsession 2\n".as_slice(), 0, 0),
            10..12 => (8, b"session 1\nsession 2\n".as_slice(), 0, 2),
            12..14 => (
                8,
                b"session 1\nadd 0\nsync 2\nsession 2\nadd 1\n".as_slice(),
                2,
                2,
            ),
            14..16 => (
                8,
                b"session 1\nadd 0\nsync 2\nsession 2\nadd 1\n".as_slice(),
                2,
                4,
            ),
            _ => (
                0,
                b"session 1\nadd 0\nsync 2\nadd 3\nview 0 at 4\nsession 2\nadd 1\nadd 2\nview 0 at 4\nneigh 1: 2 3\n".as_slice(),
                4,
                4,
            ),
        };
        assert_eq!(rt; ended.number, number, "after {after}");
        assert_eq!(rt; ended.sink.bytes(), text, "after {after}");
        for pick in 0..8 {
            let mut image = Vec::new(alloc);
            ended.disk.image(pick, &mut image)?;
            let disk = MemDisk::new(alloc, &image, 4096)?;
            let script = b"view 0\nneigh 0 0\nneigh 0 1\n".as_slice();
            let again = run_files_on(&rt, rt.alloc(), &asking, &[("c", script)], disk)?;
            let left = told_by(&again);
            assert!(rt;
                left == Some(least) || left == Some(most),
                "after {after}, image {pick}"
            );
        }
    }
    Ok(())
}

// The additions of the second session fill the ring, the `sync` of the first moves them out by calls 8 to 11, and the
// `update` reads them back. By then the second session has put one more, which isn't shown.
#[test]
fn fault_of_the_disk_in_an_update_keeps_what_is_stable(rt: HostRuntime) -> Result<(), Fail> {
    let alloc = rt.alloc();
    let words = drive_small(alloc, &["a", "b"])?;
    let one = b"stream 0\nuntil 128\nsync\nupdate 0 9\nadd 1 1\n".as_slice();
    let mut two = repeated(alloc, b"add 0 1\n", 128)?;
    two.extend_from_slice(b"view 0\nadd 2 2\ndegree 0 0\n")?;
    let mut want = Vec::new(alloc);
    want.extend_from_slice(b"session 1\nstream 0 at 0\nuntil 128\nsync 128\nsession 2\n")?;
    for i in 0..128u64 {
        let line = format!(in alloc; "add {i}\n")?;
        want.extend_from_slice(line.as_bytes())?;
    }
    want.extend_from_slice(b"view 0 at 128\n")?;
    for disk in [
        MemDisk::stopping(alloc, b"", 12, 4096)?,
        MemDisk::failing(alloc, b"", &[12], 4096)?,
    ] {
        let ended = run_files_on(&rt, rt.alloc(), &words, &[("a", one), ("b", &two)], disk)?;
        assert_eq!(rt; ended.line.as_slice(), b"graphone: disk fault\n".as_slice());
        assert_eq!(rt; ended.number, 8);
        assert_eq!(rt; ended.sink.bytes(), want.as_slice());
        let left = ended.bytes(alloc)?;
        assert_eq!(rt; left.len(), 16 + 5 + 8 * 128);
        let again = MemDisk::new(alloc, &left, 4096)?;
        let script = b"view 0\ndegree 0 0\ndegree 0 2\n".as_slice();
        let asked = run_files_on(
            &rt,
            rt.alloc(),
            &drive_small(alloc, &["c"])?,
            &[("c", script)],
            again,
        )?;
        assert_eq!(rt;
            asked.sink.bytes(),
            b"session 1\nview 0 at 128\ndegree 0: 128\ndegree 2: 0\n".as_slice()
        );
    }
    Ok(())
}
