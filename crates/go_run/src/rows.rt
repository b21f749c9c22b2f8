// Rows of whole runs, as one would type them. A row is a line of words behind `$ `, texts, each behind a line of its name and `> `, and behind
// `< ` the status with its error line, if it has one, and all that is printed:
//
//     $ drive a.gs
//     > a.gs
//     add 0 1
//     < 0
//     session 1
//     add 0

use crate::fixture::{Ended, run_from};
use go_disk::MemDisk;
use go_io::{MemShelf, MemSink};
use go_text::Text;
use std::alloc::{AllocError, Global};
use std::process::Abort;
use std::sync::Wait;
use std::test::Fail;
use std::thread::Threads;

// Runs each row over an empty disk, of which so many are there; each comes to what it should.
pub(crate) fn assert_rows<R: Threads + Wait + Abort + Sync>(
    rt: &R,
    alloc: Global,
    count: usize,
    rows: &str,
) -> Result<(), Fail> {
    assert_rows_on(rt, alloc, count, rows, b"")
}

// The same over a disk with these bytes, which a row that is refused leaves as they are.
pub(crate) fn assert_rows_on<R: Threads + Wait + Abort + Sync>(
    rt: &R,
    alloc: Global,
    count: usize,
    rows: &str,
    bytes: &[u8],
) -> Result<(), Fail> {
    let mut left = count;
    for row in rows.split("\n$ ").skip(1) {
        let Some((run, end)) = row.split_once("\n< ") else {
            return Err(Fail::new("a row has no end"));
        };
        let disk = MemDisk::new(alloc, bytes, 65536)?;
        let ended = run_row(rt, alloc, run, disk)?;
        let text = text_of(alloc, &ended)?;
        assert_eq!(rt; text.as_slice(), end.as_bytes(), "$ {run}");
        if ended.number != 0 {
            assert_eq!(rt; ended.bytes(alloc)?.as_slice(), bytes, "$ {run}");
        }
        left = left.saturating_sub(1);
    }
    assert_eq!(rt; left, 0);
    Ok(())
}

// Runs the words of a row over its texts.
fn run_row<R: Threads + Wait + Sync>(
    rt: &R,
    alloc: Global,
    row: &str,
    disk: MemDisk,
) -> Result<Ended, AllocError> {
    let mut words = Vec::new(alloc);
    let mut shelf = MemShelf::new(alloc);
    let mut sections = row.split("\n> ");
    for word in sections.next().unwrap_or("").split(' ') {
        words.push(word)?;
    }
    for section in sections {
        let (name, text) = section.split_once("\n").unwrap_or((section, ""));
        let mut bytes = Vec::new(alloc);
        add_lines(&mut bytes, text)?;
        shelf.add(&Text::of(alloc, name)?, &bytes)?;
    }
    let sink = MemSink::new(alloc, 65536, 65536)?;
    run_from(rt, alloc, &words, shelf, sink, disk)
}

// Adds lines, each with its end.
fn add_lines(bytes: &mut Vec<u8>, lines: &str) -> Result<(), AllocError> {
    bytes.extend_from_slice(lines.as_bytes())?;
    if !lines.is_empty() {
        bytes.push(b'\n')?;
    }
    Ok(())
}

// What a run came to, as the end of a row has it.
fn text_of(alloc: Global, ended: &Ended) -> Result<Vec<u8>, AllocError> {
    let mut text = Vec::new(alloc);
    let number = format!(in alloc; "{}", ended.number)?;
    text.extend_from_slice(number.as_bytes())?;
    if !ended.line.is_empty() {
        text.push(b' ')?;
        text.extend_from_slice(&ended.line)?;
        text.pop();
    }
    let printed = ended.sink.bytes();
    if !printed.is_empty() {
        text.push(b'\n')?;
        text.extend_from_slice(&printed[..printed.len() - 1])?;
    }
    Ok(text)
}
