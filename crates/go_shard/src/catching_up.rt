// The shards of a log: bringing them up to its end.
ghost use Rattle.std.specs.Prelude.{◌≡◌, ◌⊎◌, ℕ, ◌+◌, ◌<◌, ◌≤◌, ◌^◌, List, length, drop, map, IfOk, OnOk, All};
ghost use Rattle.go_word.specs.declared.edge.Edge.{Edge as Entry};
ghost use Rattle.go_shard.specs.Parts.{stops_of, HaveParts, IsBehind, AreBehind, AllHaveCome, IsBeside};
ghost use Rattle.go_shard.specs.Taking.{CanTake, MayHaveTaken, MayAllHaveTaken, CanAllTake, NoneIsAt};

use crate::splitting::split;
use crate::store::Shard;
use go_word::Edge;
use std::alloc::{AllocError, Global};

/// Brings the shards up to the end of a log, of which the entries behind the front `from` are given: each takes those that it
/// lacks. The fronts of the views are kept, and that of the log's end.
///
/// After want of memory some shards may have come further than others; none has lost anything.
pub fn catch_up(
    alloc: Global,
    shards: &mut Vec<Shard>,
    newest: &[Edge],
    from: u64,
    views: &[u64],
) -> Result<(), AllocError>
    requires { AreBehind from views.now newest.now shards.old.items }
    ensures parts { (v so_many : ℕ) (log : List Entry) → IsBehind v so_many from views.now log newest.now shards.old.items →
        HaveParts v so_many from views.now log shards.new.items }
    ensures come { OnOk result (AllHaveCome (from + length newest.now) shards.new.items) }
{
    let stops = list_stops(alloc, shards, views)?;
    let head = from + newest.len() as u64;
    let mut start = from;
    while start < head {
        let end = next_stop(&stops, start, head);
        let piece = &newest[(start - from) as usize..(end - from) as usize];
        let batches = split(alloc, piece, shards.len() as u32)?;
        take_batches(shards, &batches, start, end)?;
        start = end;
    }
    Ok(())
}

// All fronts at which a piece of the log must end.
fn list_stops(alloc: Global, shards: &[Shard], views: &[u64]) -> Result<Vec<u64>, AllocError>
    ensures { IfOk result (λ stops. stops.items ≡ stops_of shards.now views.now) }
{
    let mut stops = views.to_vec(alloc)?;
    for shard in shards {
        stops.push(shard.front())?;
    }
    Ok(stops)
}

// The first stop behind a front, and the log's end where there is none.
fn next_stop(stops: &[u64], start: u64, head: u64) -> u64
    requires { start < head }
    ensures later { start < result }
    ensures within { result ≤ head }
    ensures beside { All (IsBeside start result) stops.now }
{
    let mut end = head;
    for &stop in stops {
        if start < stop && stop < end {
            end = stop;
        }
    }
    end
}

// Takes a batch into a shard that is at the first of two fronts; one that is further has it.
fn take_batch(shard: &mut Shard, batch: &[Edge], start: u64, end: u64) -> Result<(), AllocError>
    requires { CanTake start end shard.old batch.now }
    ensures may { MayHaveTaken start end batch.now shard.old shard.new }
    ensures done { OnOk result (shard.new.front ≡ start → ⊥) }
{
    if shard.front() == start {
        shard.append(batch, end)?;
    }
    Ok(())
}

// Takes each shard's batch into it.
fn take_batches(
    shards: &mut Vec<Shard>,
    batches: &[Vec<Edge>],
    start: u64,
    end: u64,
) -> Result<(), AllocError>
    requires count { length batches.now ≡ length shards.old.items }
    requires can { CanAllTake start end shards.old.items (map (λ list. list.items) batches.now) }
    ensures may { MayAllHaveTaken start end (map (λ list. list.items) batches.now) shards.old.items shards.new.items }
    ensures done { OnOk result (NoneIsAt start shards.new.items) }
{
    for i in 0..batches.len() {
        take_batch(&mut shards[i], &batches[i], start, end)?;
    }
    Ok(())
}
