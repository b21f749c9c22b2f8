// Ranges of a log of few and of many blocks on a disk in memory, the calls of the disk that they take, and a read that fails.
ghost use Rattle.std.specs.Prelude.{◌≡◌, ◌+◌, ◌<◌, All, length, IfOk};
ghost use Rattle.go_word.specs.Log.{IsWithin};

use crate::fixture::{EDGE, SECOND, VERTICES, add};
use crate::{DurableLog, LogFault, Opened, attach};
use go_disk::MemDisk;
use go_word::Edge;
use std::alloc::{AllocError, Global};
use std::process::Abort;
use std::test::Fail;

// Appends a range to `out`, or the answer is none.
fn read(
    log: DurableLog<MemDisk>,
    a: u64,
    b: u64,
    out: &mut Vec<Edge>,
) -> Option<DurableLog<MemDisk>> {
    if a > b || b > log.front() {
        return None;
    }
    match log.read_range(a, b, out) {
        Ok(log) => Some(log),
        Err(LogFault::Disk { disk: _ } | LogFault::Memory { log: _ }) => None,
    }
}

// A log of the two edges in turn, each a block of its own.
fn four(rt: &impl Abort, alloc: Global) -> Result<DurableLog<MemDisk>, Fail> {
    let disk = MemDisk::new(alloc, b"", 1000)?;
    let Ok(Opened { mut log, edges: _ }) = attach(alloc, disk, VERTICES, 10) else {
        return Err(Fail::new("not attached"));
    };
    for _ in 0..2 {
        let Ok(longer) = add(rt, log, EDGE) else {
            return Err(Fail::new("not added"));
        };
        let Ok(longest) = add(rt, longer, SECOND) else {
            return Err(Fail::new("not added"));
        };
        log = longest;
    }
    Ok(log)
}

// One of 64 edges that differ.
fn numbered(number: u64) -> Edge
    ensures { IsWithin 8 result }
{
    Edge {
        del: false,
        src: (number % 8) as u32,
        dst: (number / 8 % 8) as u32,
    }
}

// So many edges, from this number on.
fn edges_from(alloc: Global, first: u64, count: u64) -> Result<Vec<Edge>, AllocError>
    ensures within { IfOk result (λ edges. All (IsWithin 8) edges.items) }
{
    let mut edges = Vec::new(alloc);
    for next in 0..count {
        edges.push(numbered(first.wrapping_add(next)))?;
    }
    Ok(edges)
}

// A log of the edges from number 0 on, in blocks of these lengths, over this disk.
fn log_of(
    rt: &impl Abort,
    alloc: Global,
    disk: MemDisk,
    lengths: &[u64],
) -> Result<DurableLog<MemDisk>, Fail> {
    let Ok(Opened { mut log, edges: _ }) = attach(alloc, disk, VERTICES, 10) else {
        return Err(Fail::new("not attached"));
    };
    for length in lengths {
        let edges = edges_from(alloc, log.front(), *length)?;
        let count = edges.len();
        assert!(rt; count > 0);
        assert!(rt; count <= 65_536);
        assert!(rt; log.front() < 1_000_000);
        assert!(rt; log.vertices() == VERTICES);
        let Ok(longer) = log.append(&edges) else {
            return Err(Fail::new("not added"));
        };
        log = longer;
    }
    Ok(log)
}

// That a read of a whole log takes so many calls of its disk, of which this is the first: it fails where one of them does, and adds nothing then,
// and it doesn't where the next would.
fn assert_takes_calls(
    rt: &impl Abort,
    alloc: Global,
    lengths: &[u64],
    first: u64,
    calls: u64,
) -> Result<(), Fail>
    requires { first + calls < 1000 }
{
    for call in first..first + calls + 1 {
        let disk = MemDisk::failing(alloc, b"", &[call], 1_100_000)?;
        let log = log_of(rt, alloc, disk, lengths)?;
        let whole = log.front();
        let mut out = Vec::from_slice(alloc, &[SECOND])?;
        let is_read = read(log, 0, whole, &mut out).is_some();
        assert_eq!(rt; is_read, call == first + calls, "call {call}");
        let more = edges_from(alloc, 0, if is_read { whole } else { 0 })?;
        assert_eq!(rt; out.first(), Some(&SECOND), "call {call}");
        assert_eq!(rt; out.get(1..), Some(more.as_slice()), "call {call}");
    }
    Ok(())
}

#[test]
fn each_range_is_read_behind_what_was_there(rt: HostRuntime) -> Result<(), Fail> {
    let all = [EDGE, SECOND, EDGE, SECOND];
    let mut log = four(&rt, rt.alloc())?;
    for a in 0..=4 {
        for b in a..=4 {
            let mut out = Vec::from_slice(rt.alloc(), &[SECOND])?;
            let Some(same) = read(log, a, b, &mut out) else {
                return Err(Fail::new("not read"));
            };
            log = same;
            assert_eq!(rt; out.first(), Some(&SECOND));
            assert_eq!(rt; out.get(1..), all.get(a as usize..b as usize), "{a} to {b}");
        }
    }
    assert_eq!(rt; (log.front(), log.into_disk().blunders()), (4, 0));
    Ok(())
}

#[test]
fn hundred_blocks_of_ten_are_read_by_one_call(rt: HostRuntime) -> Result<(), Fail> {
    assert_takes_calls(&rt, rt.alloc(), &[10; 100], 408, 1)
}

#[test]
fn two_full_blocks_are_read_by_two_calls(rt: HostRuntime) -> Result<(), Fail> {
    assert_takes_calls(&rt, rt.alloc(), &[65_536; 2], 16, 2)
}

#[test]
fn run_that_fills_the_buffer_is_read_by_one_call(rt: HostRuntime) -> Result<(), Fail> {
    assert_takes_calls(&rt, rt.alloc(), &[1, 65_534], 16, 1)?;
    assert_takes_calls(&rt, rt.alloc(), &[1, 65_535], 16, 2)
}

#[test]
fn ranges_of_many_blocks_begin_and_end_at_each_entry(rt: HostRuntime) -> Result<(), Fail> {
    let mut lengths = Vec::new(rt.alloc());
    for _ in 0..10 {
        lengths.extend_from_slice(&[1, 2, 3])?;
        let disk = MemDisk::new(rt.alloc(), b"", 10_000)?;
        let mut log = log_of(&rt, rt.alloc(), disk, &lengths)?;
        let whole = log.front();
        assert_eq!(rt; whole, 2 * lengths.len() as u64);
        for a in 0..=whole {
            for many in [0, 1, 2, 7, 60] {
                let b = whole.min(a + many);
                let mut out = Vec::new(rt.alloc());
                let Some(same) = read(log, a, b, &mut out) else {
                    return Err(Fail::new("not read"));
                };
                log = same;
                let want = edges_from(rt.alloc(), a, b - a)?;
                assert_eq!(rt; out.as_slice(), want.as_slice(), "{a} to {b} of {whole}");
            }
        }
        assert_eq!(rt; log.into_disk().blunders(), 0);
    }
    Ok(())
}
