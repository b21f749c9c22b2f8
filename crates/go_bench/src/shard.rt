// Filling a shard in batches, and reading all of its neighbours.
ghost use Rattle.std.specs.Prelude.{◌≡◌, ◌<◌, ◌≤◌, ◌^◌, IfOk};
ghost use Rattle.go_bench.specs.Filled.{IsFilled};

use crate::edges::{Shape, VERTICES, edges_from};
use go_shard::Shard;
use std::alloc::{AllocError, Global};
use std::io;
use std::time::Instant;

// How many edges go into a batch.
const BATCH: u32 = 65536;

/// Appends so many edges to a shard of all vertices, and reads the neighbours of each.
pub fn run(rt: &HostRuntime, alloc: Global, shape: Shape, entries: u32) -> io::Result<()> {
    let begin = Instant::now(rt)?;
    let shard = filled(alloc, shape, entries)?;
    let appended = begin.elapsed(rt)?;
    let begin = Instant::now(rt)?;
    let neighbours = count_neighbours(alloc, &shard, entries)?;
    let read = begin.elapsed(rt)?;
    println!(rt; "{entries} entries, {neighbours} neighbours")?;
    eprintln!(rt; "{} {}", appended.as_micros(), read.as_micros())
}

// A shard of all vertices with so many edges.
fn filled(alloc: Global, shape: Shape, entries: u32) -> Result<Shard, AllocError>
    ensures { IfOk result (IsFilled entries) }
{
    let mut shard = Shard::new(alloc, 0, 1, VERTICES)?;
    let mut left = entries;
    while left > 0 {
        let count = left.min(BATCH);
        let first = u64::from(entries - left);
        let edges = edges_from(alloc, shape, first, count as usize)?;
        shard.append(&edges, first + u64::from(count))?;
        left -= count;
    }
    Ok(shard)
}

// How many neighbours all vertices have together.
fn count_neighbours(alloc: Global, shard: &Shard, entries: u32) -> Result<u64, AllocError>
    requires { IsFilled entries shard.now }
{
    let mut neighbours = Vec::new(alloc);
    let mut count = 0u64;
    for vertex in 0..VERTICES {
        let raw = shard.degree_at(vertex, u64::from(entries));
        shard.neighbours(vertex, raw, &mut neighbours)?;
        count = count.wrapping_add(neighbours.len() as u64);
    }
    Ok(count)
}
