// Adding full blocks to a log on a real file.
ghost use Rattle.std.specs.Prelude.{length, All};
ghost use Rattle.go_word.specs.Log.{IsWithin};

use crate::edges::{Shape, VERTICES, edges_from};
use go_blocks::COUNT_LIMIT;
use go_disk::{Disk, FileDisk};
use go_durable::{DurableLog, attach};
use go_text::Text;
use go_word::Edge;
use std::alloc::Global;
use std::io;
use std::time::Instant;

// Room for this many entries in what is attached.
const ROOM: u64 = 1 << 26;

/// Adds so many entries to the log in a file, in full blocks, each stable before the next one.
pub fn append(rt: &HostRuntime, alloc: Global, file: &str, entries: u64) -> io::Result<()> {
    let disk = FileDisk::named(rt, Text::of(alloc, file)?);
    let Ok(opened) = attach(alloc, disk, VERTICES, ROOM) else {
        return eprintln!(rt; "go_bench: not attached");
    };
    let mut log = opened.log;
    let begin = Instant::now(rt)?;
    let mut left = entries;
    while left > 0 {
        let count = left.min(COUNT_LIMIT as u64);
        let edges = edges_from(alloc, Shape::Spread, entries - left, count as usize)?;
        let Some(longer) = with_block(log, &edges) else {
            return eprintln!(rt; "go_bench: not added");
        };
        log = longer;
        left -= count;
    }
    let taken = begin.elapsed(rt)?;
    println!(rt; "{} entries", log.front())?;
    eprintln!(rt; "{}", taken.as_micros())
}

// The log with a block more, unless it can't be added.
fn with_block<D: Disk + Drop>(log: DurableLog<D>, edges: &[Edge]) -> Option<DurableLog<D>>
    requires { All (IsWithin 65536) edges.now }
{
    let is_block = !edges.is_empty() && edges.len() <= COUNT_LIMIT as usize;
    if !is_block || log.vertices() != VERTICES || log.front() >= ROOM {
        return None;
    }
    log.append(edges).ok()
}
