// Whole runs over a shelf and a sink in memory, at rows that were worked out by hand.

use crate::fixture::{SCRIPT, outcome_of, run_over, shelf_with, words_of};
use crate::{Status, message, run};
use go_disk::MemDisk;
use go_io::{CountingGate, MemSink};
use std::test::Fail;

#[test]
fn valid_scripts_are_answered(rt: HostRuntime) -> Result<(), Fail> {
    let cases: [(&[u8], &[u8]); 6] = [
        (b"", b"session 1\n"),
        (b"# nothing\r\n\t \r\n", b"session 1\n"),
        (
            b"add 3 5\nview 0\nneigh 0 3",
            b"session 1\nadd 0\nview 0 at 1\nneigh 3: 5\n",
        ),
        (
            b"add 1 2\r\n\tview  0 \r\nadd 1 3\nneigh 0 1\n",
            b"session 1\nadd 0\nview 0 at 1\nadd 1\nneigh 1: 2\n",
        ),
        (b"add 65535 00000\n", b"session 1\nadd 0\n"),
        (
            b"view 3\nview 2\nneigh 3 0\n",
            b"session 1\nview 3 at 0\nview 2 at 0\nneigh 0:\n",
        ),
    ];
    for (script, want) in cases {
        let outcome = outcome_of(&rt, rt.alloc(), script)?;
        assert_eq!(rt; outcome.number, 0);
        assert_eq!(rt; outcome.line.as_slice(), b"".as_slice());
        assert_eq!(rt; outcome.sink.bytes(), want);
    }
    Ok(())
}

#[test]
fn first_fault_of_a_script_is_told(rt: HostRuntime) -> Result<(), Fail> {
    let cases: [(&[u8], &[u8]); 18] = [
        (b"add 65536 0", b"graphone: a.gs: line 1: vertex\n"),
        (b"view 0\nview 0\n", b"graphone: a.gs: line 2: place\n"),
        (b"add 1\n", b"graphone: a.gs: line 1: count\n"),
        (b"add 1 2 3\n", b"graphone: a.gs: line 1: count\n"),
        (b"fly\n", b"graphone: a.gs: line 1: word\n"),
        (b"del 1 2 3\n", b"graphone: a.gs: line 1: count\n"),
        (b"add 1 x\n", b"graphone: a.gs: line 1: number\n"),
        (
            b"add 18446744073709551616 0\n",
            b"graphone: a.gs: line 1: number\n",
        ),
        (b"view 4\n", b"graphone: a.gs: line 1: number\n"),
        (b"add 65536 x\n", b"graphone: a.gs: line 1: vertex\n"),
        (b"neigh 0 1\n", b"graphone: a.gs: line 1: place\n"),
        (
            b"# one\n\n \t\nadd 1 2\nfly",
            b"graphone: a.gs: line 5: word\n",
        ),
        (b"add 1 2\r\nadd\r\n", b"graphone: a.gs: line 2: count\n"),
        (b"add 1 2\r", b"graphone: a.gs: line 1: number\n"),
        (b"\r", b"graphone: a.gs: line 1: word\n"),
        (b"add 1 \xff\n", b"graphone: a.gs: line 1: number\n"),
        (b"\0\n", b"graphone: a.gs: line 1: word\n"),
        (
            b"view 0\nadd 1 2\nneigh 1 9 9\nfly\n",
            b"graphone: a.gs: line 3: count\n",
        ),
    ];
    for (script, want) in cases {
        let outcome = outcome_of(&rt, rt.alloc(), script)?;
        assert_eq!(rt; outcome.number, 2);
        assert_eq!(rt; outcome.line.as_slice(), want);
        assert_eq!(rt; outcome.sink.bytes(), b"".as_slice());
    }
    Ok(())
}

#[test]
fn script_that_is_not_read_is_told(rt: HostRuntime) -> Result<(), Fail> {
    let alloc = rt.alloc();
    let sink = MemSink::new(alloc, 9, 99)?;
    let missing = run_over(
        &rt,
        rt.alloc(),
        &["drive", "b.gs"],
        shelf_with(alloc, b"")?,
        sink,
    )?;
    assert_eq!(rt; missing.number, 3);
    assert_eq!(rt;
        missing.line.as_slice(),
        b"graphone: b.gs: not there\n".as_slice()
    );
    let mut shelf = shelf_with(alloc, b"")?;
    shelf.fail(0)?;
    let sink = MemSink::new(alloc, 9, 99)?;
    let failed = run_over(&rt, rt.alloc(), &["drive", "a.gs"], shelf, sink)?;
    assert_eq!(rt; failed.number, 5);
    assert_eq!(rt;
        failed.line.as_slice(),
        b"graphone: a.gs: read fault\n".as_slice()
    );
    assert_eq!(rt; failed.sink.bytes(), b"".as_slice());
    Ok(())
}

#[test]
fn script_of_one_byte_too_many_is_too_much(rt: HostRuntime) -> Result<(), Fail> {
    let alloc = rt.alloc();
    let long = vec![in alloc; b'\n'; 67_108_865]?;
    let shelf = shelf_with(alloc, &long)?;
    let outcome = run_over(
        &rt,
        rt.alloc(),
        &["drive", "a.gs"],
        shelf,
        MemSink::new(alloc, 9, 99)?,
    )?;
    assert_eq!(rt; outcome.number, 4);
    assert_eq!(rt;
        outcome.line.as_slice(),
        b"graphone: too much: 67108865 of 67108864\n".as_slice()
    );
    Ok(())
}

#[test]
fn sink_gets_all_or_the_first_bytes(rt: HostRuntime) -> Result<(), Fail> {
    let alloc = rt.alloc();
    let text = b"session 1\nadd 0\nview 0 at 1\nneigh 3: 5\n".as_slice();
    let cases = [
        (1, 99, 0, text),
        (5, 40, 0, text),
        (99, 39, 0, text),
        (99, 38, 9, &text[..38]),
        (5, 5, 9, b"sessi".as_slice()),
        (99, 0, 9, b"".as_slice()),
    ];
    for (take, room, number, want) in cases {
        let shelf = shelf_with(alloc, b"add 3 5\nview 0\nneigh 0 3\n")?;
        let sink = MemSink::new(alloc, take, room)?;
        let outcome = run_over(&rt, rt.alloc(), &["drive", "a.gs"], shelf, sink)?;
        assert_eq!(rt; outcome.number, number);
        assert_eq!(rt; outcome.sink.bytes(), want);
    }
    Ok(())
}

// The gate is where a test holds a session back: no clause says that it is passed.
#[test]
fn each_command_passes_the_gate_once(rt: HostRuntime) -> Result<(), Fail> {
    let alloc = rt.alloc();
    let gate = CountingGate::new();
    let words = words_of(alloc, &["drive", "a.gs"])?;
    let mut shelf = shelf_with(alloc, SCRIPT)?;
    let mut sink = MemSink::new(alloc, 4096, 4096)?;
    let disk = MemDisk::new(alloc, b"", 4096)?;
    let outcome = run(&rt, alloc, &words, &mut shelf, &mut sink, disk, &gate);
    assert_eq!(rt; outcome.status.number(), 0);
    assert_eq!(rt; (gate.tries(), gate.last(), gate.turns()), (3, (1, 2), 0));
    Ok(())
}

#[test]
fn want_of_memory_has_its_line(rt: HostRuntime) -> Result<(), Fail> {
    let mut line = Vec::new(rt.alloc());
    message(&Status::Memory, &mut line)?;
    assert_eq!(rt; line.as_slice(), b"graphone: out of memory\n".as_slice());
    assert_eq!(rt; Status::Memory.number(), 10);
    message(&Status::WriteFault, &mut line)?;
    assert_eq!(rt; line.as_slice(), b"graphone: write fault\n".as_slice());
    Ok(())
}
