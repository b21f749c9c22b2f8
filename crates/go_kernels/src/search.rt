// The levels of any graph, front by front.
ghost use Rattle.std.specs.Prelude.{◌≡◌, ◌<◌, ◌≤◌, ◌+◌, ◌^◌, All, [], ◌∷◌, fold, length, replicate, slice_set, OnOk, Some, None};
ghost use Rattle.go_model.specs.Graph.{IsDrawn, Keeps};
ghost use Rattle.go_model.specs.Levels.{AreLevels};
ghost use Rattle.go_model.specs.Search.{mark, spread, unmarked, IsFront};
ghost use Rattle.go_kernels.specs.Steps.{KeepsFront};

use crate::work::Work;
use go_model::{Graph, clear_levels};
use std::alloc::AllocError;
use std::mem;

/// Gives the level from `r` of each vertex into `out`, which is cleared first: the least number of edges of a
/// walk from `r`, and None where there is no walk.
///
/// The graph shows the same afterwards, and has become it by its own calls alone, also where memory ran out.
/// Nothing is claimed of `out` then.
pub fn levels<G: Graph>(
    g: &mut G,
    r: u32,
    work: &mut Work,
    out: &mut Vec<Option<u32>>,
) -> Result<(), AllocError>
    requires ready { G.ready g.old }
    requires root { r < (G.shows g.old).size }
    ensures exact { OnOk result (AreLevels (G.shows g.old).log (G.shows g.old).size r out.new.items) }
    ensures keeps { Keeps G.shows G.ready G.became g.old g.new }
{
    find_levels(g, r, out, &mut work.front, &mut work.next, &mut work.list)
}

// The same with the parts of the memory that it takes.
pub(crate) fn find_levels<G: Graph>(
    g: &mut G,
    r: u32,
    out: &mut Vec<Option<u32>>,
    front: &mut Vec<u32>,
    next: &mut Vec<u32>,
    list: &mut Vec<u32>,
) -> Result<(), AllocError>
    requires ready { G.ready g.old }
    requires root { r < (G.shows g.old).size }
    ensures exact { OnOk result (AreLevels (G.shows g.old).log (G.shows g.old).size r out.new.items) }
    ensures keeps { Keeps G.shows G.ready G.became g.old g.new }
{
    clear_levels(g.vertices(), out)?;
    out[r as usize] = Some(0);
    front.clear();
    front.push(r)?;
    search(g, r, out, front, next, list)
}

// Goes on from the root, front by front.
fn search<G: Graph>(
    g: &mut G,
    r: u32,
    levels: &mut [Option<u32>],
    front: &mut Vec<u32>,
    next: &mut Vec<u32>,
    list: &mut Vec<u32>,
) -> Result<(), AllocError>
    requires ready { G.ready g.old }
    requires long { length levels.old ≡ (G.shows g.old).size }
    requires drawn { IsDrawn (G.shows g.old).log (G.shows g.old).size }
    requires root { r < (G.shows g.old).size }
    requires short { length levels.old < 2 ^ 32 }
    requires rooted { levels.old ≡ slice_set (replicate (length levels.old) None) r (Some 0) }
    requires front { front.old.items ≡ r ∷ [] }
    ensures exact { OnOk result (AreLevels (G.shows g.old).log (G.shows g.old).size r levels.new) }
    ensures keeps { Keeps G.shows G.ready G.became g.old g.new }
{
    let mut level = 0;
    while !front.is_empty() {
        level += 1;
        // A reader of a store goes over its vertices fastest in their order.
        front.sort_unstable();
        next.clear();
        spread_front(g, level, front, levels, next, list)?;
        mem::swap(front, next);
    }
    Ok(())
}

// Gives a level to the neighbours of a front that have none, and lists them.
fn spread_front<G: Graph>(
    g: &mut G,
    level: u32,
    front: &[u32],
    levels: &mut [Option<u32>],
    next: &mut Vec<u32>,
    list: &mut Vec<u32>,
) -> Result<(), AllocError>
    requires ready { G.ready g.old }
    requires long { length levels.old ≡ (G.shows g.old).size }
    requires drawn { IsDrawn (G.shows g.old).log (G.shows g.old).size }
    requires there { All (λ v. v < length levels.old) front.now }
    ensures spread { OnOk result (levels.new ≡ spread (G.shows g.old).log level levels.old front.now) }
    ensures front { OnOk result (KeepsFront level levels.old levels.new next.old.items next.new.items) }
    ensures keeps { Keeps G.shows G.ready G.became g.old g.new }
{
    for v in front {
        g.neighbours(*v, list)?;
        mark_all(level, list, levels, next)?;
    }
    Ok(())
}

// Gives a level to those of a list that have none, and lists them.
fn mark_all(
    level: u32,
    list: &[u32],
    levels: &mut [Option<u32>],
    next: &mut Vec<u32>,
) -> Result<(), AllocError>
    requires { All (λ v. v < length levels.old) list.now }
    ensures marked { OnOk result (levels.new ≡ fold (mark level) levels.old list.now) }
    ensures front { OnOk result (KeepsFront level levels.old levels.new next.old.items next.new.items) }
{
    for v in list {
        let place = *v as usize;
        if levels[place].is_none() {
            levels[place] = Some(level);
            next.push(*v)?;
        }
    }
    Ok(())
}
