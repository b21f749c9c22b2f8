// A run of entries is split among the shards, the halves of a long one at once.
ghost use Rattle.std.specs.Prelude.{◌≡◌, ◌+◌, ◌++◌, ◌<◌, ◌≤◌, ◌/◌, ◌%◌, ℕ, [], IfOk, OnOk, get_or, length, map, replicate};
ghost use Rattle.go_shard.specs.Split.{IsSplit};

use go_word::{Edge, Edges};
use std::alloc::{AllocError, Global};
use std::thread::{Threads, join};

// From so many entries on the halves are split at once. To start a thread takes as long as to split thousands of entries.
const LONG: usize = 65536;

/// Gives for each shard the entries that leave its vertices, in their order, as one thread would.
///
/// The lists' memory is used again. After want of memory nothing is claimed of them.
pub fn split<R: Threads + Sync>(
    rt: &R,
    alloc: Global,
    edges: &[Edge],
    shards: u32,
    out: &mut Vec<Edges>,
) -> Result<(), AllocError>
    requires { 1 ≤ shards }
    ensures { OnOk result (IsSplit shards edges.now out.new.items) }
{
    let lists = emptied(alloc, shards, out)?;
    let lists = if edges.len() < LONG {
        deal(edges, shards, lists)?
    } else {
        deal_halves(rt, alloc, edges, shards, lists)?
    };
    hand_out(lists, out)
}

// Deals the halves out at once, and joins what each shard gets of them.
fn deal_halves<R: Threads + Sync>(
    rt: &R,
    alloc: Global,
    edges: &[Edge],
    shards: u32,
    lists: Vec<Vec<Edge>>,
) -> Result<Vec<Vec<Edge>>, AllocError>
    requires some { 1 ≤ shards }
    requires empty { map (λ list. list.items) lists.items ≡ replicate shards [] }
    ensures { IfOk result (λ lists. IsSplit shards edges.now (map (λ list. list.items) lists.items)) }
{
    let later = empty_lists(alloc, shards)?;
    let (front, back) = edges.split_at(edges.len() / 2);
    let (one, two) = join(
        rt,
        move || deal(front, shards, lists),
        move || deal(back, shards, later),
    );
    joined(one?, two?, shards)
}

// Puts the entries into the lists of their shards.
fn deal(
    edges: &[Edge],
    shards: u32,
    mut lists: Vec<Vec<Edge>>,
) -> Result<Vec<Vec<Edge>>, AllocError>
    requires some { 1 ≤ shards }
    requires empty { map (λ list. list.items) lists.items ≡ replicate shards [] }
    ensures { IfOk result (λ lists. IsSplit shards edges.now (map (λ list. list.items) lists.items)) }
{
    for edge in edges {
        lists[shard_of(edge.src, shards)].push(*edge)?;
    }
    Ok(lists)
}

// Which shard has a vertex.
fn shard_of(v: u32, shards: u32) -> usize
    requires { 1 ≤ shards }
    ensures { result ≡ v % shards }
{
    (v - place_of(v, shards) * shards) as usize
}

// The place of a vertex in its shard, without a division where the number of shards is a power of two.
fn place_of(v: u32, shards: u32) -> u32
    requires { 1 ≤ shards }
    ensures { result ≡ v / shards }
{
    let shift = shards.trailing_zeros();
    if 1 << shift == shards {
        v >> shift
    } else {
        v / shards
    }
}

// Puts each list of the second half behind that of the first.
fn joined(
    mut one: Vec<Vec<Edge>>,
    two: Vec<Vec<Edge>>,
    shards: u32,
) -> Result<Vec<Vec<Edge>>, AllocError>
    requires count { (length one.items ≡ shards) × (length two.items ≡ shards) }
    ensures count { IfOk result (λ lists. length lists.items ≡ shards) }
    ensures each { IfOk result (λ lists. (i : ℕ) → i < shards →
        get_or (map (λ list. list.items) lists.items) i [] ≡
        get_or (map (λ list. list.items) one.items) i [] ++ get_or (map (λ list. list.items) two.items) i []) }
{
    let mut i = 0;
    while i < one.len() {
        one[i].extend_from_slice(&two[i])?;
        i += 1;
    }
    Ok(one)
}

// So many lists without entries.
fn empty_lists(alloc: Global, count: u32) -> Result<Vec<Vec<Edge>>, AllocError>
    ensures { IfOk result (λ lists. map (λ list. list.items) lists.items ≡ replicate count []) }
{
    let mut lists = Vec::with_capacity(alloc, count as usize)?;
    for _ in 0..count {
        lists.push(Vec::new(alloc))?;
    }
    Ok(lists)
}

// The same, with the memory of lists that are taken over.
fn emptied(alloc: Global, count: u32, out: &mut Vec<Edges>) -> Result<Vec<Vec<Edge>>, AllocError>
    ensures lists { IfOk result (λ lists. map (λ list. list.items) lists.items ≡ replicate count []) }
    ensures empty { OnOk result (out.new.items ≡ []) }
{
    let mut lists = Vec::with_capacity(alloc, count as usize)?;
    for _ in 0..count {
        lists.push(cleared(alloc, out.pop()))?;
    }
    out.clear();
    Ok(lists)
}

// A list without entries, with the memory of another one where there is one.
fn cleared(alloc: Global, list: Option<Edges>) -> Vec<Edge>
    ensures { result.items ≡ [] }
{
    match list {
        Some(edges) => {
            let mut list = edges.into_vec();
            list.clear();
            list
        }
        None => Vec::new(alloc),
    }
}

// Hands the lists out as such.
fn hand_out(lists: Vec<Vec<Edge>>, out: &mut Vec<Edges>) -> Result<(), AllocError>
    requires { out.old.items ≡ [] }
    ensures { OnOk result (out.new.items ≡ map (λ list. list.items) lists.items) }
{
    for list in lists {
        out.push(Edges::from_vec(list))?;
    }
    Ok(())
}
