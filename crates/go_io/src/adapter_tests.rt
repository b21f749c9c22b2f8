// The adapters on real files and outputs, through their traits' bounds.

use super::*;
use crate::folder_shelf::read_within;
use crate::std_sink::write_piece;
use crate::tests::{fetch, put};
use std::alloc::{AllocError, Global};
use std::fs::{self, File};
use std::io::{self, ErrorKind, Write};
use std::os::unix::fs as unix;
use std::test::Fail;

// A name of so many letters. The system has names of at most 255 bytes.
fn name_of(alloc: Global, letters: usize) -> Result<String, AllocError> {
    let mut name = String::new(alloc);
    for _ in 0..letters {
        name.push('n')?;
    }
    Ok(name)
}

#[test]
fn folder_shelf_reads_files(rt: HostRuntime) -> Result<(), Fail> {
    let alloc = rt.alloc();
    let long = vec![in alloc; b'x'; 300_000]?;
    fs::write(&rt, "long", long.as_slice())?;
    fs::write(&rt, "text", "view 0\n")?;
    fs::create_dir(&rt, "folder")?;
    unix::symlink(&rt, "text", "link")?;
    unix::symlink(&rt, "absent", "dangling")?;
    unix::symlink(&rt, "ring", "ring")?;
    let longest = name_of(alloc, 255)?;
    let too_long = name_of(alloc, 256)?;
    let mut shelf = FolderShelf::new(&rt);
    let mut out = Vec::new(alloc);
    let cases = [
        ("text", 7, Fetched::Whole, 7),
        ("text", 6, Fetched::TooLong, 7),
        ("long", u64::MAX, Fetched::Whole, 300_000),
        ("long", 299_999, Fetched::TooLong, 300_000),
        ("long", 0, Fetched::TooLong, 1),
        ("folder", 9, Fetched::Failed, 0),
        ("absent", 9, Fetched::Missing, 0),
        ("absent/text", 9, Fetched::Missing, 0),
        ("text/below", 9, Fetched::Missing, 0),
        ("link/below", 9, Fetched::Missing, 0),
        ("link", 7, Fetched::Whole, 7),
        ("dangling", 9, Fetched::Missing, 0),
        ("ring", 9, Fetched::Failed, 0),
        (longest.as_str(), 9, Fetched::Missing, 0),
        (too_long.as_str(), 9, Fetched::Missing, 0),
        ("te\0xt", 9, Fetched::Missing, 0),
        ("", 9, Fetched::Missing, 0),
    ];
    for (name, limit, answer, count) in cases {
        assert_eq!(rt;
            fetch(alloc, &mut shelf, name, limit, &mut out)?,
            answer,
            "at {name:?}"
        );
        assert_eq!(rt; out.len(), count, "at {name:?}");
    }
    assert_eq!(rt;
        fetch(alloc, &mut shelf, "text", 7, &mut out)?,
        Fetched::Whole
    );
    assert_eq!(rt; out.as_slice(), b"view 0\n".as_slice());
    for name in ["long", "text", "link", "dangling", "ring"] {
        fs::remove_file(&rt, name)?;
    }
    fs::remove_dir(&rt, "folder")?;
    Ok(())
}

// Room for more bytes than there can be is refused before anything is read.
#[test]
fn text_for_which_there_is_no_memory(rt: HostRuntime) {
    let mut rest = b"session 1".as_slice();
    let mut out = Vec::new(rt.alloc());
    let answer = read_within(&mut rest, 1 << 63, u64::MAX, &mut out);
    assert_eq!(rt; answer, Fetched::Memory);
    assert_eq!(rt; rest, b"session 1".as_slice());
}

#[test]
fn one_byte_past_the_limit_is_read_and_no_more(rt: HostRuntime) -> Result<(), Fail> {
    let mut rest = b"session 1".as_slice();
    let mut out = Vec::new(rt.alloc());
    assert_eq!(rt; read_within(&mut rest, 0, 3, &mut out), Fetched::TooLong);
    assert_eq!(rt; rest, b"ion 1".as_slice());
    Ok(())
}

// A writer whose first write is interrupted, and which then takes `most` bytes at once.
#[derive(Drop)]
struct Faltering {
    interrupted: bool,
    most: usize,
}

impl Write for Faltering {
    fn write(&mut self, bytes: &[u8]) -> io::Result<usize> {
        if self.interrupted {
            return Ok(bytes.len().min(self.most));
        }
        self.interrupted = true;
        Err(io::Error::from(ErrorKind::Interrupted))
    }

    fn flush(&mut self) -> io::Result<()> {
        Ok(())
    }
}

#[test]
fn standard_output_takes_pieces(rt: HostRuntime) {
    let mut sink = StdSink::new(&rt);
    assert_eq!(rt; put(&mut sink, b"taken\n"), Ok(6));
    assert_eq!(rt; put(&mut sink, b""), Ok(0));
    assert_eq!(rt; put_all(&mut sink, b"taken whole\n"), Ok(()));
    assert_eq!(rt; put_all(&mut sink, b""), Ok(()));
}

#[test]
fn interrupted_write_is_tried_again(rt: HostRuntime) {
    for (most, answer) in [(5, Ok(5)), (9, Ok(9)), (0, Err(Failed))] {
        let mut writer = Faltering {
            interrupted: false,
            most,
        };
        assert_eq!(rt; write_piece(&mut writer, b"session 1"), answer, "at {most}");
    }
}

#[test]
fn full_output_is_a_fault(rt: HostRuntime) -> Result<(), Fail> {
    let mut full = File::options().write(true).open(&rt, "/dev/full")?;
    assert_eq!(rt; write_piece(&mut full, b"session 1"), Err(Failed));
    Ok(())
}
