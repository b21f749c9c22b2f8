// Logs on a real file, and on one that is too long.
ghost use Rattle.std.specs.Prelude.{◌≡◌, All, length, IfOk};
ghost use Rattle.go_word.specs.Log.{IsWithin};
ghost use Rattle.go_disk.specs.Device.{silent, silent_rules};
ghost use Rattle.go_blocks.specs.File.{IsCount};

use crate::fixture::{EDGE, VERTICES};
use crate::{FILE_LIMIT, OpenFault, Opened, attach};
use go_disk::{Disk, Failed, FileDisk};
use go_text::Text;
use go_word::Edge;
use std::alloc::{AllocError, Global};
use std::fs;
use std::test::Fail;

// A disk that is longer than a log file may be, and tells nothing.
#[derive(Drop)]
struct LongDisk;

impl Disk for LongDisk {
    ghost device = { silent (λ disk. 0) };

    ghost rules = { silent_rules (λ disk. 0) };

    fn len(&mut self) -> Result<u64, Failed> {
        Ok(FILE_LIMIT + 1)
    }

    fn read(&mut self, _at: u64, _out: &mut [u8]) -> Result<(), Failed> {
        Ok(())
    }

    fn write_at(&mut self, _at: u64, _bytes: &[u8]) -> Result<(), Failed> {
        Ok(())
    }

    fn sync(&mut self) -> Result<(), Failed> {
        Ok(())
    }
}

#[test]
fn file_of_more_than_a_gibibyte_is_too_long(rt: HostRuntime) -> Result<(), Fail> {
    match attach(rt.alloc(), LongDisk, VERTICES, 10) {
        Err(OpenFault::TooLong { len, disk: _ }) => assert_eq!(rt; len, 1_073_741_825),
        _ => return Err(Fail::new("not too long")),
    }
    Ok(())
}

// As many copies of the edge.
pub(crate) fn copies(alloc: Global, count: usize) -> Result<Vec<Edge>, AllocError>
    ensures count { IfOk result (λ edges. length edges.items ≡ count) }
    ensures within { IfOk result (λ edges. All (IsWithin 8) edges.items) }
{
    let mut edges = Vec::with_capacity(alloc, count)?;
    for _ in 0..count {
        edges.push(EDGE)?;
    }
    Ok(edges)
}

// Attaches the real file, and adds these edges; tells how many there were before.
fn add_to_file(rt: &HostRuntime, edges: &[Edge]) -> Result<usize, Fail>
    requires count { IsCount (length edges.now) }
    requires within { All (IsWithin 8) edges.now }
{
    let disk = FileDisk::named(rt, Text::of(rt.alloc(), "graph.log")?);
    let Ok(opened) = attach(rt.alloc(), disk, VERTICES, 1_000_000) else {
        return Err(Fail::new("not attached"));
    };
    let Opened { log, edges: found } = opened;
    if log.front() >= 1_000_000 || log.vertices() != VERTICES {
        return Err(Fail::new("another log"));
    }
    let Ok(_log) = log.append(edges) else {
        return Err(Fail::new("not appended"));
    };
    Ok(found.len())
}

#[test]
fn full_blocks_on_a_real_file_are_found_again(rt: HostRuntime) -> Result<(), Fail> {
    let edges = copies(rt.alloc(), 65_536)?;
    for before in [0, 65_536, 131_072] {
        assert_eq!(rt; add_to_file(&rt, &edges)?, before);
    }
    fs::remove_file(&rt, "graph.log")?;
    Ok(())
}
