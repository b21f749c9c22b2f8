// The split of a batch among shards.
ghost use Rattle.std.specs.Prelude.{◌≡◌, ◌≤◌, [], IfOk, map, replicate};
ghost use Rattle.go_shard.specs.Split.{IsSplit};

use crate::striping::Striping;
use go_word::Edge;
use std::alloc::{AllocError, Global};

/// Gives for each shard the entries that leave its vertices, in their order.
pub fn split(alloc: Global, edges: &[Edge], shards: u32) -> Result<Vec<Vec<Edge>>, AllocError>
    requires { 1 ≤ shards }
    ensures { IfOk result (λ lists. IsSplit shards edges.now (map (λ list. list.items) lists.items)) }
{
    let striping = Striping::new(shards);
    // Most batches are spread nearly evenly.
    let even = edges.len() / shards as usize;
    let mut lists = empty_lists(alloc, shards, even.saturating_add(even / 16))?;
    for edge in edges {
        lists[striping.shard_of(edge.src)].push(*edge)?;
    }
    Ok(lists)
}

// So many lists without entries, each with room for some.
fn empty_lists(alloc: Global, count: u32, room: usize) -> Result<Vec<Vec<Edge>>, AllocError>
    ensures { IfOk result (λ lists. map (λ list. list.items) lists.items ≡ replicate count []) }
{
    let mut lists = Vec::with_capacity(alloc, count as usize)?;
    for _ in 0..count {
        lists.push(Vec::with_capacity(alloc, room)?)?;
    }
    Ok(lists)
}
