// Words of the command line: which are taken, what they ask for, and which are refused.

use crate::fixture::{FILE, run_from, run_over, shelf_with, words_of};
use crate::log_name;
use go_disk::MemDisk;
use go_io::MemSink;
use go_text::Text;
use std::test::Fail;

// The text of a name; none where there is no name.
fn text_of(name: &Option<Text>) -> &str {
    match name {
        Some(name) => name.as_text(),
        None => "",
    }
}

#[test]
fn other_words_are_refused(rt: HostRuntime) -> Result<(), Fail> {
    let cases: [&[&str]; 39] = [
        &[],
        &["drive"],
        &["fly", "a.gs"],
        &["a.gs", "drive"],
        &["gen"],
        &["gen", "--edges", "8"],
        &["gen", "--seed", "1"],
        &["gen", "--edges", "0", "--seed", "1"],
        &["gen", "--edges", "1000001", "--seed", "1"],
        &["gen", "--edges=8", "--seed=18446744073709551616"],
        &["gen", "--edges", "8", "--seed", "1", "a.gs"],
        &["drive", "--seed", "1", "a.gs"],
        &["drive", "1", "2", "3", "4", "5", "6", "7", "8", "9"],
        &["drive", "-"],
        &["drive", "-a.gs"],
        &["drive", "--", "a.gs"],
        &["drive", "--help"],
        &["drive", "--vert", "8", "a.gs"],
        &["drive", "--vertices8", "a.gs"],
        &["drive", "--edges", "8", "a.gs"],
        &["drive", "--vertices", "0", "a.gs"],
        &["drive", "--vertices", "1048577", "a.gs"],
        &["drive", "--vertices", "8x", "a.gs"],
        &["drive", "--vertices", "+8", "a.gs"],
        &["drive", "--vertices=", "a.gs"],
        &["drive", "--ring", "100", "a.gs"],
        &["drive", "--ring", "64", "a.gs"],
        &["drive", "--ring", "129", "a.gs"],
        &["drive", "--ring", "2097152", "a.gs"],
        &["drive", "--ring", "128", "--ring", "128", "a.gs"],
        &["drive", "--ring=128", "a.gs", "--ring", "256"],
        &["drive", "--shards", "0", "a.gs"],
        &["drive", "--shards", "65", "a.gs"],
        &["drive", "--log", "", "a.gs"],
        &["drive", "--log=", "a.gs"],
        &["drive", "--log", "-x", "a.gs"],
        &["drive", "--log=-x", "a.gs"],
        &["drive", "--log", "--ring", "128", "a.gs"],
        &["drive", "a.gs", "--log"],
    ];
    let alloc = rt.alloc();
    for words in cases {
        let shelf = shelf_with(alloc, b"")?;
        let outcome = run_over(&rt, rt.alloc(), words, shelf, MemSink::new(alloc, 9, 99)?)?;
        assert_eq!(rt; outcome.number, 1);
        assert_eq!(rt;
            outcome.line.as_slice(),
            b"graphone: bad arguments\n".as_slice()
        );
        assert_eq!(rt; outcome.sink.bytes(), b"".as_slice());
        assert_eq!(rt; outcome.bytes(alloc)?.as_slice(), b"".as_slice());
        let list = words_of(alloc, words)?;
        assert_eq!(rt; log_name(alloc, &list)?.is_none(), true);
    }
    Ok(())
}

#[test]
fn words_of_the_grammar_are_taken_and_name_a_log(rt: HostRuntime) -> Result<(), Fail> {
    let cases: [(&[&str], &str); 14] = [
        (&["drive", "a.gs"], "graph.log"),
        (&["drive", "--vertices", "8", "a.gs"], "graph.log"),
        (&["drive", "--vertices=1048576", "a.gs"], "graph.log"),
        (&["drive", "--vertices", "0001", "a.gs"], "graph.log"),
        (&["drive", "--ring=128", "a.gs"], "graph.log"),
        (&["drive", "--ring", "1048576", "a.gs"], "graph.log"),
        (&["drive", "--shards", "64", "a.gs"], "graph.log"),
        (&["drive", "a.gs", "--shards=1"], "graph.log"),
        (&["drive", "--log", "b.log", "a.gs"], "b.log"),
        (&["drive", "--log=b.log", "a.gs"], "b.log"),
        (&["drive", "--log==x", "a.gs"], "=x"),
        (&["drive", "a.gs", "--log=x=-y"], "x=-y"),
        (&["drive", "--log", "drive", "a.gs"], "drive"),
        (
            &[
                "drive",
                "--log",
                "z",
                "--shards",
                "2",
                "a.gs",
                "--ring=128",
                "--vertices",
                "8",
            ],
            "z",
        ),
    ];
    let alloc = rt.alloc();
    for (words, log) in cases {
        let shelf = shelf_with(alloc, b"add 0 0\n")?;
        let outcome = run_over(&rt, rt.alloc(), words, shelf, MemSink::new(alloc, 99, 99)?)?;
        assert_eq!(rt; outcome.number, 0);
        assert_eq!(rt; outcome.sink.bytes(), b"session 1\nadd 0\n".as_slice());
        let list = words_of(alloc, words)?;
        let name = log_name(alloc, &list)?;
        assert_eq!(rt; text_of(&name), log);
    }
    Ok(())
}

#[test]
fn file_may_have_an_empty_name(rt: HostRuntime) -> Result<(), Fail> {
    let alloc = rt.alloc();
    let shelf = shelf_with(alloc, b"")?;
    let outcome = run_over(
        &rt,
        rt.alloc(),
        &["drive", ""],
        shelf,
        MemSink::new(alloc, 9, 99)?,
    )?;
    assert_eq!(rt; outcome.number, 3);
    assert_eq!(rt;
        outcome.line.as_slice(),
        b"graphone: : not there\n".as_slice()
    );
    Ok(())
}

#[test]
fn vertices_are_below_the_asked_number(rt: HostRuntime) -> Result<(), Fail> {
    let alloc = rt.alloc();
    let cases: [(&str, &[u8], u8, &[u8]); 4] = [
        ("8", b"add 8 0", 2, b"graphone: a.gs: line 1: vertex\n"),
        ("8", b"add 7 0", 0, b""),
        ("1", b"add 0 0", 0, b""),
        ("1", b"add 0 1", 2, b"graphone: a.gs: line 1: vertex\n"),
    ];
    for (vertices, script, number, line) in cases {
        let words = ["drive", "--vertices", vertices, "--ring", "128", "a.gs"];
        let shelf = shelf_with(alloc, script)?;
        let outcome = run_over(&rt, rt.alloc(), &words, shelf, MemSink::new(alloc, 99, 99)?)?;
        assert_eq!(rt; outcome.number, number);
        assert_eq!(rt; outcome.line.as_slice(), line);
    }
    Ok(())
}

#[test]
fn log_of_other_vertices_than_asked_is_refused(rt: HostRuntime) -> Result<(), Fail> {
    let alloc = rt.alloc();
    let cases: [(&str, u8, &[u8], &[u8]); 3] = [
        ("8", 0, b"", b"session 1\nadd 1\n"),
        ("16", 7, b"graphone: log has 8 vertices, asked 16\n", b""),
        ("4", 7, b"graphone: log has 8 vertices, asked 4\n", b""),
    ];
    for (vertices, number, line, replies) in cases {
        let words = ["drive", "a.gs", "--vertices", vertices];
        let shelf = shelf_with(alloc, b"add 1 1\n")?;
        let sink = MemSink::new(alloc, 99, 99)?;
        let disk = MemDisk::new(alloc, &FILE, 4096)?;
        let outcome = run_from(&rt, rt.alloc(), &words, shelf, sink, disk)?;
        assert_eq!(rt; outcome.number, number);
        assert_eq!(rt; outcome.line.as_slice(), line);
        assert_eq!(rt; outcome.sink.bytes(), replies);
    }
    Ok(())
}
