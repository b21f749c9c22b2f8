// Shelves and sinks in memory, and gates, at small cases worked out by hand, each through its trait's bound.

use super::*;
use go_text::Text;
use std::alloc::{AllocError, Global};
use std::test::Fail;

// What a shelf answers to a name, through the bound.
pub(crate) fn fetch<S: Shelf>(
    alloc: Global,
    shelf: &mut S,
    name: &str,
    limit: u64,
    out: &mut Vec<u8>,
) -> Result<Fetched, AllocError> {
    let name = Text::of(alloc, name)?;
    Ok(shelf.fetch(&name, limit, out))
}

// One put, through the bound.
pub(crate) fn put<K: Sink>(sink: &mut K, bytes: &[u8]) -> Result<usize, Failed> {
    sink.put(bytes)
}

// The commands that come through a gate, in their order, through the bound.
fn passed<G: Gate>(
    alloc: Global,
    gate: &G,
    commands: &[(u8, u32)],
) -> Result<Vec<(u8, u32)>, AllocError> {
    let mut through = Vec::new(alloc);
    for (session, command) in commands {
        gate.pass(*session, *command);
        through.push((*session, *command))?;
    }
    Ok(through)
}

// The turns of the workers that come through a gate, through the bound.
fn worked<G: Gate>(
    alloc: Global,
    gate: &G,
    turns: &[(Worker, u64)],
) -> Result<Vec<(Worker, u64)>, AllocError> {
    let mut through = Vec::new(alloc);
    for (worker, front) in turns {
        gate.work(*worker, *front);
        through.push((*worker, *front))?;
    }
    Ok(through)
}

fn shelf_of_two(alloc: Global) -> Result<MemShelf, AllocError> {
    let mut shelf = MemShelf::new(alloc);
    shelf.add(&Text::of(alloc, "a")?, b"first")?;
    shelf.add(&Text::of(alloc, "empty")?, b"")?;
    Ok(shelf)
}

#[test]
fn memory_shelf_answers_by_its_map(rt: HostRuntime) -> Result<(), Fail> {
    let alloc = rt.alloc();
    let mut shelf = shelf_of_two(alloc)?;
    let mut out = Vec::from_slice(alloc, b"before")?;
    let cases = [
        ("a", 5, Fetched::Whole, "first"),
        ("a", 4, Fetched::TooLong, ""),
        ("b", 5, Fetched::Missing, ""),
        ("empty", 0, Fetched::Whole, ""),
        ("", u64::MAX, Fetched::Missing, ""),
    ];
    for (name, limit, answer, text) in cases {
        assert_eq!(rt;
            fetch(alloc, &mut shelf, name, limit, &mut out)?,
            answer,
            "at {name:?}"
        );
        assert_eq!(rt; out.as_slice(), text.as_bytes(), "at {name:?}");
    }
    shelf.add(&Text::of(alloc, "a")?, b"the second text")?;
    assert_eq!(rt;
        fetch(alloc, &mut shelf, "a", 99, &mut out)?,
        Fetched::Whole
    );
    assert_eq!(rt; out.as_slice(), b"the second text".as_slice());
    Ok(())
}

#[test]
fn memory_shelf_fails_at_the_listed_calls(rt: HostRuntime) -> Result<(), Fail> {
    let alloc = rt.alloc();
    let mut shelf = shelf_of_two(alloc)?;
    let mut out = Vec::new(alloc);
    shelf.fail(3)?;
    shelf.fail(1)?;
    let answers = [
        Fetched::Whole,
        Fetched::Failed,
        Fetched::Whole,
        Fetched::Failed,
        Fetched::Whole,
    ];
    for answer in answers {
        assert_eq!(rt; fetch(alloc, &mut shelf, "a", 5, &mut out)?, answer);
    }
    Ok(())
}

#[test]
fn memory_sink_takes_up_to_its_take_and_room(rt: HostRuntime) -> Result<(), Fail> {
    let mut sink = MemSink::new(rt.alloc(), 3, 7)?;
    let cases = [
        ("abcde", Ok(3)),
        ("", Ok(0)),
        ("de", Ok(2)),
        ("fghi", Ok(2)),
        ("hi", Err(Failed)),
        ("", Ok(0)),
    ];
    for (piece, answer) in cases {
        assert_eq!(rt; put(&mut sink, piece.as_bytes()), answer, "at {piece:?}");
    }
    assert_eq!(rt; sink.bytes(), b"abcdefg".as_slice());
    Ok(())
}

#[test]
fn memory_sink_fails_at_the_listed_calls(rt: HostRuntime) -> Result<(), Fail> {
    let mut sink = MemSink::new(rt.alloc(), 9, 9)?;
    sink.fail(2)?;
    sink.fail(0)?;
    for answer in [Err(Failed), Ok(2), Err(Failed), Ok(2)] {
        assert_eq!(rt; put(&mut sink, b"ab"), answer);
    }
    assert_eq!(rt; sink.bytes(), b"abab".as_slice());
    Ok(())
}

#[test]
fn whole_piece_goes_in_many_puts(rt: HostRuntime) -> Result<(), Fail> {
    let mut sink = MemSink::new(rt.alloc(), 2, 9)?;
    assert_eq!(rt; put_all(&mut sink, b"session 1"), Ok(()));
    assert_eq!(rt; sink.bytes(), b"session 1".as_slice());
    let mut short = MemSink::new(rt.alloc(), 2, 5)?;
    assert_eq!(rt; put_all(&mut short, b"session 1"), Err(Failed));
    assert_eq!(rt; short.bytes(), b"sessi".as_slice());
    Ok(())
}

// In whatever order they come, and as often: a gate that held one of them would keep this test from its end.
#[test]
fn no_gate_lets_each_session_and_worker_through(rt: HostRuntime) -> Result<(), Fail> {
    let alloc = rt.alloc();
    let commands = [(1, 0), (2, 0), (1, 1), (1, 1), (255, u32::MAX), (1, 0)];
    let through = passed(alloc, &NoGate, &commands)?;
    assert_eq!(rt; through.as_slice(), commands.as_slice());
    let turns = [
        (Worker::Flusher, 7),
        (Worker::Archiver, 0),
        (Worker::Archiver, u64::MAX),
        (Worker::Flusher, 7),
        (Worker::Flusher, 0),
    ];
    let through = worked(alloc, &NoGate, &turns)?;
    assert_eq!(rt; through.as_slice(), turns.as_slice());
    Ok(())
}

#[test]
fn counting_gate_notes_who_passes(rt: HostRuntime) -> Result<(), Fail> {
    let alloc = rt.alloc();
    let gate = CountingGate::new();
    assert_eq!(rt; (gate.tries(), gate.last(), gate.turns()), (0, (0, 0), 0));
    let commands = [(1, 0), (255, u32::MAX), (2, 7)];
    passed(alloc, &gate, &commands)?;
    assert_eq!(rt; (gate.tries(), gate.last(), gate.turns()), (3, (2, 7), 0));
    worked(alloc, &gate, &[(Worker::Flusher, 7), (Worker::Archiver, 0)])?;
    assert_eq!(rt; (gate.tries(), gate.last(), gate.turns()), (3, (2, 7), 2));
    Ok(())
}
