// Worked and drawn graphs: the fast kernels answer what is known, and what the plain programs answer.
ghost use Rattle.std.specs.Prelude.{◌<◌, ◌^◌, All, length};
ghost use Rattle.go_word.specs.Log.{IsWithin};

use crate::{Work, hop, level_counts, levels, rank};
use go_model::{Listed, hop_of, levels_of, rank_of};
use go_word::Edge;
use std::alloc::{AllocError, Global};
use std::process::Abort;
use std::test::Fail;

// In a list of levels: the vertex isn't reached.
const NEVER: u32 = 1000;

fn edge(del: bool, src: u32, dst: u32) -> Edge {
    Edge { del, src, dst }
}

// That the entries are those of a graph of so many vertices, so that what follows may ask for it.
fn assert_drawn(rt: &impl Abort, edges: &[Edge], vertices: u32)
    ensures ids { All (IsWithin vertices) edges.now }
    ensures short { length edges.now < 2 ^ 32 }
{
    for edge in edges {
        assert_within(rt, *edge, vertices);
    }
    assert!(rt; edges.len() < 1 << 32);
}

// That the vertices of an entry are there.
fn assert_within(rt: &impl Abort, edge: Edge, vertices: u32)
    ensures { IsWithin vertices edge }
{
    assert!(rt; edge.src < vertices);
    assert!(rt; edge.dst < vertices);
}

// The levels from a vertex, by the fast kernel; the plain program answers the same.
fn levels_from(
    rt: &impl Abort,
    alloc: Global,
    work: &mut Work,
    edges: &[Edge],
    vertices: u32,
    root: u32,
) -> Result<Vec<Option<u32>>, AllocError> {
    assert_drawn(rt, edges, vertices);
    assert!(rt; root < vertices);
    let mut fast = [Some(9)].to_vec(alloc)?;
    let mut graph = Listed::new(edges, vertices);
    levels(&mut graph, root, work, &mut fast)?;
    let mut plain = Vec::new(alloc);
    levels_of(edges, vertices, root, &mut plain)?;
    assert_eq!(rt; fast.as_slice(), plain.as_slice());
    Ok(fast)
}

// That the first `k` of a rank are the same by the fast kernel and the plain program.
fn assert_same_rank(
    rt: &impl Abort,
    alloc: Global,
    edges: &[Edge],
    vertices: u32,
    k: u32,
) -> Result<(), AllocError> {
    assert_drawn(rt, edges, vertices);
    let mut work = Work::new(alloc);
    let mut fast = Vec::new(alloc);
    let mut graph = Listed::new(edges, vertices);
    rank(&mut graph, k, &mut work, &mut fast)?;
    let mut plain = Vec::new(alloc);
    rank_of(edges, vertices, k, &mut plain)?;
    assert_eq!(rt; fast.len(), k.min(vertices) as usize);
    assert_eq!(rt; fast.as_slice(), plain.as_slice());
    Ok(())
}

// That a hop is the same by the fast kernel and the plain program.
fn assert_same_hop(
    rt: &impl Abort,
    alloc: Global,
    edges: &[Edge],
    vertices: u32,
    v: u32,
) -> Result<(), AllocError> {
    assert_drawn(rt, edges, vertices);
    assert!(rt; v < vertices);
    let mut fast = [9].to_vec(alloc)?;
    let mut graph = Listed::new(edges, vertices);
    hop(&mut graph, v, &mut fast)?;
    let mut plain = Vec::new(alloc);
    hop_of(edges, v, &mut plain)?;
    assert_eq!(rt; fast.as_slice(), plain.as_slice());
    Ok(())
}

// That these are the levels.
fn assert_levels(rt: &impl Abort, levels: &[Option<u32>], want: &[u32]) {
    assert_eq!(rt; levels.len(), want.len());
    for (level, wanted) in levels.iter().zip(want) {
        assert_eq!(rt; level.unwrap_or(NEVER), *wanted);
    }
}

// The next of a row of numbers that look drawn.
fn next(number: u32) -> u32 {
    number.wrapping_mul(1_664_525).wrapping_add(1_013_904_223)
}

// Entries among so many vertices, each third one a deletion.
fn drawn(alloc: Global, count: u32, vertices: u32, seed: u32) -> Result<Vec<Edge>, AllocError> {
    let mut edges = Vec::new(alloc);
    let mut number = seed;
    for i in 0..count {
        number = next(number);
        let src = (number >> 16).checked_rem(vertices).unwrap_or(0);
        number = next(number);
        let dst = (number >> 16).checked_rem(vertices).unwrap_or(0);
        edges.push(edge(i % 3 == 2, src, dst))?;
    }
    Ok(edges)
}

#[test]
fn a_web_of_pages_a_self_loop_and_one_vertex(rt: HostRuntime) -> Result<(), Fail> {
    let mut work = Work::new(rt.alloc());
    let web = [
        edge(false, 0, 1),
        edge(false, 0, 2),
        edge(false, 1, 2),
        edge(false, 3, 0),
        edge(false, 2, 4),
        edge(false, 4, 2),
    ];
    let levels = levels_from(&rt, rt.alloc(), &mut work, &web, 6, 0)?;
    assert_levels(&rt, &levels, &[0, 1, 1, NEVER, 2, NEVER]);
    assert_same_rank(&rt, rt.alloc(), &web, 6, 3)?;
    assert_same_hop(&rt, rt.alloc(), &web, 6, 0)?;
    let looped = [edge(false, 0, 0), edge(false, 0, 1)];
    let levels = levels_from(&rt, rt.alloc(), &mut work, &looped, 4, 0)?;
    assert_levels(&rt, &levels, &[0, 1, NEVER, NEVER]);
    let levels = levels_from(&rt, rt.alloc(), &mut work, &[], 1, 0)?;
    assert_levels(&rt, &levels, &[0]);
    Ok(())
}

#[test]
fn deleted_edges_lead_nowhere_until_they_are_added_again(rt: HostRuntime) -> Result<(), Fail> {
    let mut work = Work::new(rt.alloc());
    let gone = [edge(false, 0, 1), edge(false, 1, 2), edge(true, 0, 1)];
    let levels = levels_from(&rt, rt.alloc(), &mut work, &gone, 3, 0)?;
    assert_levels(&rt, &levels, &[0, NEVER, NEVER]);
    let again = [
        edge(false, 0, 1),
        edge(false, 1, 2),
        edge(true, 0, 1),
        edge(false, 0, 1),
    ];
    let levels = levels_from(&rt, rt.alloc(), &mut work, &again, 3, 0)?;
    assert_levels(&rt, &levels, &[0, 1, 2]);
    Ok(())
}

#[test]
fn a_path_whose_entries_come_backwards(rt: HostRuntime) -> Result<(), Fail> {
    let mut work = Work::new(rt.alloc());
    let mut path = Vec::new(rt.alloc());
    for v in (0..60).rev() {
        path.push(edge(false, v, v + 1))?;
    }
    let levels = levels_from(&rt, rt.alloc(), &mut work, &path, 61, 0)?;
    for (level, v) in levels.iter().zip(0..61) {
        assert_eq!(rt; *level, Some(v));
    }
    assert_same_rank(&rt, rt.alloc(), &path, 61, 100)?;
    Ok(())
}

#[test]
fn a_star_of_parallel_edges(rt: HostRuntime) -> Result<(), Fail> {
    let mut work = Work::new(rt.alloc());
    let mut star = Vec::new(rt.alloc());
    for i in 0..80 {
        star.push(edge(false, 0, (i * 3) % 40))?;
    }
    let levels = levels_from(&rt, rt.alloc(), &mut work, &star, 41, 0)?;
    assert_eq!(rt; levels.as_slice().get(40).copied(), Some(None));
    assert_eq!(rt;
        levels.iter().filter(|level| **level == Some(1)).count(),
        39
    );
    assert_same_rank(&rt, rt.alloc(), &star, 41, 2)?;
    assert_same_hop(&rt, rt.alloc(), &star, 41, 0)?;
    Ok(())
}

#[test]
fn drawn_graphs_are_answered_as_by_the_plain_programs(rt: HostRuntime) -> Result<(), Fail> {
    let mut work = Work::new(rt.alloc());
    for (count, vertices, seed) in [(30, 12, 1), (60, 16, 2), (90, 30, 3), (120, 40, 4)] {
        let edges = drawn(rt.alloc(), count, vertices, seed)?;
        for root in 0..5 {
            levels_from(&rt, rt.alloc(), &mut work, &edges, vertices, root)?;
            assert_same_hop(&rt, rt.alloc(), &edges, vertices, root)?;
            assert_same_rank(&rt, rt.alloc(), &edges, vertices, root * 4)?;
        }
    }
    Ok(())
}

#[test]
fn levels_are_counted_up_to_the_last_one_that_is_reached(rt: HostRuntime) -> Result<(), Fail> {
    let alloc = rt.alloc();
    let edges = [
        edge(false, 0, 1),
        edge(false, 0, 2),
        edge(false, 1, 2),
        edge(false, 3, 0),
        edge(false, 2, 4),
        edge(false, 4, 2),
    ];
    assert_drawn(&rt, &edges, 6);
    let mut work = Work::new(alloc);
    let mut counts = [7, 7].to_vec(alloc)?;
    let mut graph = Listed::new(&edges, 6);
    let unreached = level_counts(&mut graph, 0, &mut work, &mut counts)?;
    assert_eq!(rt; counts.as_slice(), [1, 2, 1].as_slice());
    assert_eq!(rt; unreached, 2);
    let unreached = level_counts(&mut graph, 5, &mut work, &mut counts)?;
    assert_eq!(rt; counts.as_slice(), [1].as_slice());
    assert_eq!(rt; unreached, 5);
    Ok(())
}
