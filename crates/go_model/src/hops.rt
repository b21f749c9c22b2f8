// The neighbours of a vertex, each once.
ghost use Rattle.std.specs.Prelude.{◌≡◌, ◌↔◌, ℕ, Contains, OnOk};
ghost use Rattle.std.specs.List.Sorted.{IsStrictlyIncreasing};
ghost use Rattle.go_model.specs.Hops.{IsHop};

use go_word::{Edge, neighbours_of};
use std::alloc::AllocError;

/// Gives the neighbours of `v`, each once and ascending, into `out`, which is cleared first.
///
/// This is the plain program of the definition. After want of memory nothing is claimed of `out`.
pub fn hop_of(edges: &[Edge], v: u32, out: &mut Vec<u32>) -> Result<(), AllocError>
    ensures { OnOk result (IsHop edges.now v out.new.items) }
{
    neighbours_of(edges, v, out)?;
    keep_once(out);
    Ok(())
}

/// Sorts a list and keeps each number once.
pub fn keep_once(list: &mut Vec<u32>)
    ensures rises { IsStrictlyIncreasing list.new.items }
    ensures members { (x : ℕ) → Contains list.new.items x ↔ Contains list.old.items x }
{
    list.sort_unstable();
    list.dedup();
}
