// The neighbours of a vertex, computed from the entries as the definition says it.
ghost use Rattle.std.specs.Prelude.{◌≡◌, ◌≢◌, ◌<◌, ℕ, length, slice_index, IfNone, IfSome, OnOk};
ghost use Rattle.go_word.specs.Neighbours.{neighbours, without_first, after_entry};

use crate::edge::Edge;
use std::alloc::AllocError;

/// Gives the neighbours of `s` after a log into `out`, which is cleared first.
///
/// This is the plain program of the definition: a deletion searches the list.
/// After want of memory nothing is claimed of `out`.
pub fn neighbours_of(edges: &[Edge], s: u32, out: &mut Vec<u32>) -> Result<(), AllocError>
    ensures { OnOk result (out.new.items ≡ neighbours edges.now s) }
{
    out.clear();
    for edge in edges {
        if edge.src == s {
            apply(edge, out)?;
        }
    }
    Ok(())
}

// Takes one entry of the vertex into the list of its neighbours.
fn apply(edge: &Edge, list: &mut Vec<u32>) -> Result<(), AllocError>
    ensures { OnOk result (list.new.items ≡ after_entry edge.now.src list.old.items edge.now) }
{
    if edge.del {
        remove_first(list, edge.dst);
    } else {
        list.push(edge.dst)?;
    }
    Ok(())
}

/// Takes the earliest `d` out of a list of neighbours, where there is one.
pub fn remove_first(list: &mut Vec<u32>, d: u32)
    ensures { list.new.items ≡ without_first d list.old.items }
{
    if let Some(at) = earliest(list, d) {
        list.remove(at);
    }
}

// The place of the earliest `d`.
fn earliest(list: &[u32], d: u32) -> Option<usize>
    ensures absent { IfNone result ((k : ℕ) → k < length list.now → slice_index list.now k ≢ d) }
    ensures within { IfSome result (λ i. i < length list.now) }
    ensures here { IfSome result (λ i. slice_index list.now i ≡ d) }
    ensures first { IfSome result (λ i. (k : ℕ) → k < i → slice_index list.now k ≢ d) }
{
    list.iter().position(|v| *v == d)
}
