// Whole runs of more than one block: the small store moves its ring out when it is full, at each 128 entries.

use crate::fixture::{Ended, run_small};
use go_disk::MemDisk;
use std::alloc::{AllocError, Global};
use std::sync::Wait;
use std::test::Fail;
use std::thread::Threads;

// The small store's ring, and how many entries the scripts here put: two rings full and 44 more.
const SLOTS: usize = 128;

const PUTS: usize = 300;

// Room for all that a disk is asked to write.
const ROOM: u64 = 16_384;

// A script that adds the edge from 1 to 2 so often, and then asks for neighbours in four views of all.
fn script_of(alloc: Global, puts: usize) -> Result<Vec<u8>, AllocError> {
    let mut script = Vec::new(alloc);
    for _ in 0..puts {
        script.extend_from_slice(b"add 1 2\n")?;
    }
    script.extend_from_slice(b"view 0\nneigh 0 1\nview 1\nneigh 1 0\n")?;
    script.extend_from_slice(b"view 2\nneigh 2 1\nview 3\nneigh 3 0\n")?;
    Ok(script)
}

// The replies to the first additions, below the heading.
fn replies_of(alloc: Global, puts: usize) -> Result<Vec<u8>, AllocError> {
    let mut text = Vec::new(alloc);
    text.extend_from_slice(b"session 1\n")?;
    for i in 0..puts {
        let line = format!(in alloc; "add {i}\n")?;
        text.extend_from_slice(line.as_bytes())?;
    }
    Ok(text)
}

// And those to the questions behind them.
fn all_replies(alloc: Global, puts: usize) -> Result<Vec<u8>, AllocError> {
    let mut text = replies_of(alloc, puts)?;
    for place in [0, 2] {
        let view = format!(in alloc; "view {place} at {puts}\nneigh 1:")?;
        text.extend_from_slice(view.as_bytes())?;
        for _ in 0..puts {
            text.extend_from_slice(b" 2")?;
        }
        let next = place + 1;
        let empty = format!(in alloc; "\nview {next} at {puts}\nneigh 0:\n")?;
        text.extend_from_slice(empty.as_bytes())?;
    }
    Ok(text)
}

// A run of that script on a disk.
fn run_puts<R: Threads + Wait + Sync>(
    rt: &R,
    alloc: Global,
    disk: MemDisk,
) -> Result<Ended, AllocError> {
    run_small(rt, alloc, &script_of(alloc, PUTS)?, disk)
}

// A header of 16 bytes, and for each block 5 bytes of frame and 8 for each entry.
#[test]
fn few_entries_stand_in_one_block(rt: HostRuntime) -> Result<(), Fail> {
    let alloc = rt.alloc();
    let ended = run_small(
        &rt,
        alloc,
        &script_of(alloc, 5)?,
        MemDisk::new(alloc, b"", ROOM)?,
    )?;
    assert_eq!(rt; ended.number, 0);
    assert_eq!(rt; ended.sink.bytes(), all_replies(alloc, 5)?.as_slice());
    assert_eq!(rt; ended.bytes(alloc)?.len(), 16 + 5 + 8 * 5);
    Ok(())
}

#[test]
fn file_has_one_block_for_each_ring_and_one_for_the_rest(rt: HostRuntime) -> Result<(), Fail> {
    let alloc = rt.alloc();
    let ended = run_puts(&rt, alloc, MemDisk::new(alloc, b"", ROOM)?)?;
    assert_eq!(rt; ended.number, 0);
    assert_eq!(rt; ended.sink.bytes(), all_replies(alloc, PUTS)?.as_slice());
    assert_eq!(rt; ended.bytes(alloc)?.len(), 16 + 3 * 5 + 8 * PUTS);
    Ok(())
}

// Making the file takes eight calls, and each block four. A fault of the disk is told as such in each of them, and what
// is shown rests on the blocks before.
#[test]
fn fault_in_a_later_block_is_told_as_one_of_the_disk(rt: HostRuntime) -> Result<(), Fail> {
    let alloc = rt.alloc();
    for after in 8..21 {
        let disk = MemDisk::stopping(alloc, b"", after, ROOM)?;
        let ended = run_puts(&rt, alloc, disk)?;
        let (number, text) = match after {
            8..12 => (8, replies_of(alloc, 0)?),
            12..16 => (8, replies_of(alloc, SLOTS)?),
            16..20 => (8, replies_of(alloc, 2 * SLOTS)?),
            _ => (0, all_replies(alloc, PUTS)?),
        };
        assert_eq!(rt; ended.number, number, "after {after}");
        assert_eq!(rt; ended.sink.bytes(), text.as_slice(), "after {after}");
    }
    Ok(())
}
