// What the tests of whole runs share: small stores, a shelf with one script, and what a run comes to.

use crate::{Outcome, message, run, run_with};
use go_api::Setup;
use go_disk::MemDisk;
use go_io::{MemShelf, MemSink, NoGate};
use go_text::Text;
use std::alloc::{AllocError, Global};
use std::sync::Wait;
use std::thread::Threads;

// The numbers of the small stores.
pub(crate) const SMALL: Setup = Setup {
    vertices: 8,
    ring: 128,
    shards: 2,
};

// The file of 8 vertices and the addition of 3 to 5.
pub(crate) const FILE: [u8; 29] = [
    0x01, 0x47, 0x52, 0x4F, 0x4E, 0x45, 0x4C, 0x4F, 0x47, 0x01, 0x00, 0x08, 0x00, 0x00, 0x00, 0x01,
    0x01, 0x00, 0x00, 0x00, 0x05, 0x00, 0x00, 0x80, 0x01, 0x00, 0x00, 0x00, 0x00,
];

// The script that leaves it, and its replies.
pub(crate) const SCRIPT: &[u8] = b"add 3 5\nview 0\nneigh 0 3\n";

pub(crate) const REPLIES: &[u8] = b"session 1\nadd 0\nview 0 at 1\nneigh 3: 5\n";

// What a run comes to: its status, as a number and its line, what the sink has, and the disk.
#[derive(Drop)]
pub(crate) struct Ended {
    pub(crate) number: u8,
    pub(crate) line: Vec<u8>,
    pub(crate) sink: MemSink,
    pub(crate) disk: MemDisk,
}

impl Ended {
    pub(crate) fn of(
        alloc: Global,
        outcome: Outcome<MemDisk>,
        sink: MemSink,
    ) -> Result<Ended, AllocError> {
        let Outcome { status, disk } = outcome;
        let mut line = Vec::new(alloc);
        message(&status, &mut line)?;
        Ok(Ended {
            number: status.number(),
            line,
            sink,
            disk,
        })
    }

    // What a read of the disk gives.
    pub(crate) fn bytes(&self, alloc: Global) -> Result<Vec<u8>, AllocError> {
        let mut bytes = Vec::new(alloc);
        self.disk.image(1, &mut bytes)?;
        Ok(bytes)
    }
}

// The words of a command line.
pub(crate) fn words_of(alloc: Global, words: &[&str]) -> Result<Vec<Text>, AllocError> {
    let mut list = Vec::new(alloc);
    for word in words {
        list.push(Text::of(alloc, word)?)?;
    }
    Ok(list)
}

// A shelf with one text, `a.gs`.
pub(crate) fn shelf_with(alloc: Global, script: &[u8]) -> Result<MemShelf, AllocError> {
    let mut shelf = MemShelf::new(alloc);
    shelf.add(&Text::of(alloc, "a.gs")?, script)?;
    Ok(shelf)
}

// A run over these, on an empty disk.
pub(crate) fn run_over<R: Threads + Wait + Sync>(
    rt: &R,
    alloc: Global,
    words: &[&str],
    shelf: MemShelf,
    sink: MemSink,
) -> Result<Ended, AllocError> {
    run_from(
        rt,
        alloc,
        words,
        shelf,
        sink,
        MemDisk::new(alloc, b"", 4096)?,
    )
}

// The same on this disk.
pub(crate) fn run_from<R: Threads + Wait + Sync>(
    rt: &R,
    alloc: Global,
    words: &[&str],
    mut shelf: MemShelf,
    mut sink: MemSink,
    disk: MemDisk,
) -> Result<Ended, AllocError> {
    let words = words_of(alloc, words)?;
    let outcome = run(rt, alloc, &words, &mut shelf, &mut sink, disk, &NoGate);
    Ended::of(alloc, outcome, sink)
}

// A run of one script, with ample room.
pub(crate) fn outcome_of<R: Threads + Wait + Sync>(
    rt: &R,
    alloc: Global,
    script: &[u8],
) -> Result<Ended, AllocError> {
    let shelf = shelf_with(alloc, script)?;
    let sink = MemSink::new(alloc, 4096, 4096)?;
    run_over(rt, alloc, &["drive", "a.gs"], shelf, sink)
}

// A run of one script over a small store on this disk.
pub(crate) fn run_small<R: Threads + Wait + Sync>(
    rt: &R,
    alloc: Global,
    script: &[u8],
    disk: MemDisk,
) -> Result<Ended, AllocError> {
    let mut shelf = shelf_with(alloc, script)?;
    let mut sink = MemSink::new(alloc, 4096, 4096)?;
    let names = [Text::of(alloc, "a.gs")?];
    let outcome = run_with(
        rt, alloc, SMALL, &names, &mut shelf, &mut sink, disk, &NoGate,
    );
    Ended::of(alloc, outcome, sink)
}

// The same on a disk with these bytes.
pub(crate) fn run_on<R: Threads + Wait + Sync>(
    rt: &R,
    alloc: Global,
    script: &[u8],
    bytes: &[u8],
) -> Result<Ended, AllocError> {
    run_small(rt, alloc, script, MemDisk::new(alloc, bytes, 4096)?)
}

// A shelf with texts by their names.
pub(crate) fn shelf_of(alloc: Global, texts: &[(&str, &[u8])]) -> Result<MemShelf, AllocError> {
    let mut shelf = MemShelf::new(alloc);
    for (name, text) in texts {
        shelf.add(&Text::of(alloc, name)?, text)?;
    }
    Ok(shelf)
}

// A run of these words over texts by their names, on an empty disk, with ample room.
pub(crate) fn run_files<R: Threads + Wait + Sync>(
    rt: &R,
    alloc: Global,
    words: &[&str],
    texts: &[(&str, &[u8])],
) -> Result<Ended, AllocError> {
    let disk = MemDisk::new(alloc, b"", 65536)?;
    run_files_on(rt, alloc, words, texts, disk)
}

// The same on this disk.
pub(crate) fn run_files_on<R: Threads + Wait + Sync>(
    rt: &R,
    alloc: Global,
    words: &[&str],
    texts: &[(&str, &[u8])],
    disk: MemDisk,
) -> Result<Ended, AllocError> {
    let sink = MemSink::new(alloc, 65536, 65536)?;
    run_from(rt, alloc, words, shelf_of(alloc, texts)?, sink, disk)
}

// The words that drive these scripts over a small store.
pub(crate) fn drive_small<'a>(
    alloc: Global,
    files: &[&'a str],
) -> Result<Vec<&'a str>, AllocError> {
    let mut words = Vec::new(alloc);
    words.extend_from_slice(&["drive", "--vertices", "8", "--ring", "128", "--shards", "2"])?;
    words.extend_from_slice(files)?;
    Ok(words)
}

// So many times one text.
pub(crate) fn repeated(alloc: Global, text: &[u8], count: usize) -> Result<Vec<u8>, AllocError> {
    let mut all = Vec::new(alloc);
    for _ in 0..count {
        all.extend_from_slice(text)?;
    }
    Ok(all)
}
