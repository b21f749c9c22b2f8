// Levels by the plain search: each turn looks through all vertices for those of its level.
ghost use Rattle.std.specs.Prelude.{◌≡◌, ◌+◌, ◌<◌, ◌≤◌, ◌^◌, if◌then◌else◌, All, fold, length, replicate, slice_set, Some, OnOk, IfOk, None, true, false};
ghost use Rattle.go_word.specs.Log.{IsWithin};
ghost use Rattle.go_model.specs.Levels.{AreLevels};
ghost use Rattle.go_model.specs.Search.{mark, spread, unmarked, IsFront};

use go_word::{Edge, neighbours_of};
use std::alloc::{AllocError, Global};

/// Gives the level from `r` of each vertex into `out`, which is cleared first: the least number of edges of a
/// walk from `r`, and None where there is no walk.
///
/// This is the plain program of the definition. After want of memory nothing is claimed of `out`.
pub fn levels_of(
    edges: &[Edge],
    vertices: u32,
    r: u32,
    out: &mut Vec<Option<u32>>,
) -> Result<(), AllocError>
    requires ids { All (IsWithin vertices) edges.now }
    requires root { r < vertices }
    ensures { OnOk result (AreLevels edges.now vertices r out.new.items) }
{
    clear_levels(vertices, out)?;
    out[r as usize] = Some(0);
    let alloc = *out.allocator();
    search(alloc, edges, r, out)
}

// Goes on from the root, level by level.
fn search(
    alloc: Global,
    edges: &[Edge],
    r: u32,
    levels: &mut [Option<u32>],
) -> Result<(), AllocError>
    requires ids { All (IsWithin (length levels.old)) edges.now }
    requires root { r < length levels.old }
    requires short { length levels.old < 2 ^ 32 }
    requires rooted { levels.old ≡ slice_set (replicate (length levels.old) None) r (Some 0) }
    ensures { OnOk result (AreLevels edges.now (length levels.old) r levels.new) }
{
    let mut front = Vec::new(alloc);
    let mut list = Vec::new(alloc);
    let mut level = 0;
    let mut more = true;
    while more {
        collect_front(levels, level, &mut front)?;
        more = spread_front(edges, &front, level + 1, levels, &mut list)?;
        level += 1;
    }
    Ok(())
}

/// Makes a list that has no level for any vertex.
pub fn clear_levels(vertices: u32, out: &mut Vec<Option<u32>>) -> Result<(), AllocError>
    ensures { OnOk result (out.new.items ≡ replicate vertices None) }
{
    out.clear();
    out.resize(vertices as usize, None)
}

// Gives the vertices at a level, ascending.
fn collect_front(levels: &[Option<u32>], level: u32, front: &mut Vec<u32>) -> Result<(), AllocError>
    requires { length levels.now < 2 ^ 32 }
    ensures { OnOk result (IsFront levels.now level front.new.items) }
{
    front.clear();
    for v in 0..levels.len() {
        if levels[v] == Some(level) {
            front.push(v as u32)?;
        }
    }
    Ok(())
}

// Gives the next level to the neighbours of a front that have none, and says whether there was one.
fn spread_front(
    edges: &[Edge],
    front: &[u32],
    level: u32,
    levels: &mut [Option<u32>],
    list: &mut Vec<u32>,
) -> Result<bool, AllocError>
    requires { All (IsWithin (length levels.old)) edges.now }
    ensures spread { OnOk result (levels.new ≡ spread edges.now level levels.old front.now) }
    ensures counted { IfOk result (λ more. unmarked levels.new + (if more then 1 else 0) ≤ unmarked levels.old) }
    ensures unless { IfOk result (λ more. more ≡ false → levels.new ≡ levels.old) }
{
    let mut more = false;
    for v in front {
        neighbours_of(edges, *v, list)?;
        more |= mark_all(list, level, levels);
    }
    Ok(more)
}

// Gives a level to those of a list that have none, and says whether there was one.
fn mark_all(list: &[u32], level: u32, levels: &mut [Option<u32>]) -> bool
    requires { All (λ v. v < length levels.old) list.now }
    ensures marked { levels.new ≡ fold (mark level) levels.old list.now }
    ensures counted { unmarked levels.new + (if result then 1 else 0) ≤ unmarked levels.old }
    ensures unless { result ≡ false → levels.new ≡ levels.old }
{
    let mut more = false;
    for v in list {
        let place = *v as usize;
        if levels[place].is_none() {
            levels[place] = Some(level);
            more = true;
        }
    }
    more
}
