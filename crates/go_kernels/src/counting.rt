// How many vertices are at each level.
ghost use Rattle.std.specs.Prelude.{◌≡◌, ◌<◌, ◌^◌, length, replicate, IfOk};
ghost use Rattle.go_model.specs.Graph.{Keeps};
ghost use Rattle.go_model.specs.Counts.{AreCounts, AreCountsOf, IsFull};
ghost use Rattle.go_kernels.specs.Depth.{IsDepth, AreCounted};

use crate::search::find_levels;
use crate::work::Work;
use go_model::Graph;
use std::alloc::AllocError;

/// Counts the vertices at each level from `r` into `counts`, which is cleared first, up to the greatest level that is reached, and
/// answers how many vertices aren't reached.
///
/// The graph shows the same afterwards, and has become it by its own calls alone, also where memory ran out.
/// Nothing is claimed of `counts` then.
pub fn level_counts<G: Graph>(
    g: &mut G,
    r: u32,
    work: &mut Work,
    counts: &mut Vec<u32>,
) -> Result<u32, AllocError>
    requires ready { G.ready g.old }
    requires root { r < (G.shows g.old).size }
    ensures exact { IfOk result (λ unreached. AreCounts (G.shows g.old).log (G.shows g.old).size r counts.new.items unreached) }
    ensures keeps { Keeps G.shows G.ready G.became g.old g.new }
{
    // There are fewer than 2^32 vertices, and the entries lie between them.
    let _vertices = g.vertices();
    let Work {
        front,
        next,
        list,
        levels,
    } = work;
    find_levels(g, r, levels, front, next, list)?;
    count(levels, counts)
}

// Counts the vertices at each level, and answers how many have none.
fn count(levels: &[Option<u32>], counts: &mut Vec<u32>) -> Result<u32, AllocError>
    requires few { length levels.now < 2 ^ 32 }
    requires full { IsFull levels.now }
    ensures { IfOk result (λ unreached. AreCountsOf levels.now counts.new.items unreached) }
{
    counts.clear();
    counts.resize(depth_of(levels), 0)?;
    Ok(count_all(levels, counts))
}

// How many levels there are, up to the greatest one.
fn depth_of(levels: &[Option<u32>]) -> usize
    ensures { IsDepth levels.now result }
{
    let mut depth = 0;
    for level in levels {
        if let Some(level) = level {
            let level = *level as usize;
            if depth <= level {
                depth = level + 1;
            }
        }
    }
    depth
}

// Adds each vertex to the count of its level, and answers how many have none.
fn count_all(levels: &[Option<u32>], counts: &mut [u32]) -> u32
    requires few { length levels.now < 2 ^ 32 }
    requires none { counts.old ≡ replicate (length counts.old) 0 }
    requires deep { IsDepth levels.now (length counts.old) }
    ensures counted { AreCounted levels.now counts.new result }
    ensures same { length counts.new ≡ length counts.old }
{
    let mut unreached = 0;
    for level in levels {
        match level {
            None => unreached += 1,
            Some(level) => counts[*level as usize] += 1,
        }
    }
    unreached
}
