// Worked graphs: levels, ranks and hops, each known beforehand.
ghost use Rattle.std.specs.Prelude.{◌<◌, ◌^◌, All, length};
ghost use Rattle.go_word.specs.Log.{IsWithin};

use crate::{Graph, Listed, hop_of, levels_of, question_laws, rank_of};
use go_word::Edge;
use std::alloc::{AllocError, Global};
use std::process::Abort;
use std::test::Fail;

// In a list of levels: the vertex isn't reached.
const NEVER: u32 = 1000;

fn add(src: u32, dst: u32) -> Edge {
    Edge {
        del: false,
        src,
        dst,
    }
}

fn del(src: u32, dst: u32) -> Edge {
    Edge {
        del: true,
        src,
        dst,
    }
}

// That the entries are those of a graph of so many vertices, so that what follows may ask for it.
fn assert_drawn(rt: &impl Abort, edges: &[Edge], vertices: u32)
    ensures ids { All (IsWithin vertices) edges.now }
    ensures short { length edges.now < 2 ^ 32 }
{
    for edge in edges {
        assert_within(rt, *edge, vertices);
    }
    assert!(rt; edges.len() < 1 << 32);
}

// That the vertices of an entry are there.
fn assert_within(rt: &impl Abort, edge: Edge, vertices: u32)
    ensures { IsWithin vertices edge }
{
    assert!(rt; edge.src < vertices);
    assert!(rt; edge.dst < vertices);
}

// That these are the levels of all vertices.
fn assert_levels(
    rt: &impl Abort,
    alloc: Global,
    edges: &[Edge],
    root: u32,
    want: &[u32],
) -> Result<(), AllocError> {
    assert!(rt; want.len() < 100);
    let vertices = want.len() as u32;
    assert_drawn(rt, edges, vertices);
    assert!(rt; root < vertices);
    let mut levels = [Some(9)].to_vec(alloc)?;
    levels_of(edges, vertices, root, &mut levels)?;
    assert_eq!(rt; levels.len(), want.len());
    for (level, wanted) in levels.iter().zip(want) {
        assert_eq!(rt; level.unwrap_or(NEVER), *wanted);
    }
    Ok(())
}

// That these are the first vertices, with their degrees.
fn assert_rank(
    rt: &impl Abort,
    alloc: Global,
    edges: &[Edge],
    vertices: u32,
    want: &[(u32, u32)],
) -> Result<(), AllocError> {
    assert!(rt; want.len() < 100);
    assert_drawn(rt, edges, vertices);
    let mut rank = Vec::new(alloc);
    rank_of(edges, vertices, want.len() as u32, &mut rank)?;
    assert_eq!(rt; rank.len(), want.len());
    for (ranked, (vertex, degree)) in rank.iter().zip(want) {
        assert_eq!(rt; ranked.vertex, *vertex);
        assert_eq!(rt; ranked.degree, *degree);
    }
    Ok(())
}

// That these are the vertices that one edge from `v` leads to.
fn assert_hop(
    rt: &impl Abort,
    alloc: Global,
    edges: &[Edge],
    v: u32,
    want: &[u32],
) -> Result<(), AllocError> {
    let mut hop = [9].to_vec(alloc)?;
    hop_of(edges, v, &mut hop)?;
    assert_eq!(rt; hop.as_slice(), want);
    Ok(())
}

#[test]
fn a_web_of_pages(rt: HostRuntime) -> Result<(), Fail> {
    let edges = [
        add(0, 1),
        add(0, 2),
        add(1, 2),
        add(3, 0),
        add(2, 4),
        add(4, 2),
    ];
    assert_levels(&rt, rt.alloc(), &edges, 0, &[0, 1, 1, NEVER, 2, NEVER])?;
    assert_rank(&rt, rt.alloc(), &edges, 6, &[(0, 2), (1, 1), (2, 1)])?;
    assert_hop(&rt, rt.alloc(), &edges, 0, &[1, 2])?;
    Ok(())
}

#[test]
fn a_self_loop_and_a_vertex_that_is_not_reached(rt: HostRuntime) -> Result<(), Fail> {
    let edges = [add(0, 0), add(0, 1)];
    assert_levels(&rt, rt.alloc(), &edges, 0, &[0, 1, NEVER, NEVER])?;
    assert_rank(
        &rt,
        rt.alloc(),
        &edges,
        4,
        &[(0, 2), (1, 0), (2, 0), (3, 0)],
    )?;
    assert_hop(&rt, rt.alloc(), &edges, 0, &[0, 1])?;
    Ok(())
}

#[test]
fn deleted_edges_lead_nowhere_until_they_are_added_again(rt: HostRuntime) -> Result<(), Fail> {
    let gone = [add(0, 1), add(1, 2), del(0, 1)];
    assert_levels(&rt, rt.alloc(), &gone, 0, &[0, NEVER, NEVER])?;
    assert_rank(&rt, rt.alloc(), &gone, 3, &[(1, 1), (0, 0), (2, 0)])?;
    assert_hop(&rt, rt.alloc(), &gone, 0, &[])?;
    let again = [add(0, 1), add(1, 2), del(0, 1), add(0, 1)];
    let twice = [add(0, 1), add(0, 1), add(1, 2), del(0, 1)];
    let early = [del(0, 1), add(0, 1), add(1, 2)];
    for edges in [again.as_slice(), twice.as_slice(), early.as_slice()] {
        assert_levels(&rt, rt.alloc(), edges, 0, &[0, 1, 2])?;
        assert_rank(&rt, rt.alloc(), edges, 3, &[(0, 1), (1, 1)])?;
        assert_hop(&rt, rt.alloc(), edges, 0, &[1])?;
    }
    Ok(())
}

#[test]
fn a_path_a_star_and_one_vertex(rt: HostRuntime) -> Result<(), Fail> {
    let path = [add(3, 4), add(2, 3), add(1, 2), add(0, 1)];
    assert_levels(&rt, rt.alloc(), &path, 1, &[NEVER, 0, 1, 2, 3])?;
    assert_levels(&rt, rt.alloc(), &path, 4, &[NEVER, NEVER, NEVER, NEVER, 0])?;
    assert_rank(
        &rt,
        rt.alloc(),
        &path,
        5,
        &[(0, 1), (1, 1), (2, 1), (3, 1), (4, 0)],
    )?;
    let star = [add(2, 4), add(2, 1), add(2, 3), add(2, 0), add(2, 3)];
    assert_levels(&rt, rt.alloc(), &star, 2, &[1, 1, 0, 1, 1])?;
    assert_rank(&rt, rt.alloc(), &star, 5, &[(2, 5), (0, 0)])?;
    assert_hop(&rt, rt.alloc(), &star, 2, &[0, 1, 3, 4])?;
    assert_levels(&rt, rt.alloc(), &[], 0, &[0])?;
    assert_rank(&rt, rt.alloc(), &[], 1, &[(0, 0)])?;
    assert_rank(&rt, rt.alloc(), &[], 1, &[])?;
    Ok(())
}

// What a program in another language found for entries that it drew.
#[test]
fn a_drawn_graph_that_another_program_asked(rt: HostRuntime) -> Result<(), Fail> {
    let edges = [
        add(2, 10),
        add(10, 5),
        add(10, 10),
        add(1, 1),
        del(10, 5),
        add(8, 9),
        add(8, 2),
        add(11, 11),
        add(9, 2),
        del(8, 2),
        add(8, 1),
        add(9, 0),
        add(1, 11),
        add(11, 11),
        del(9, 0),
        add(5, 3),
        add(8, 11),
        add(3, 8),
        add(2, 9),
        del(8, 11),
        add(10, 5),
        add(9, 9),
        add(0, 9),
        add(6, 0),
        del(9, 9),
    ];
    let from_zero = [0, 7, 2, 5, NEVER, 4, NEVER, NEVER, 6, 1, 3, 8];
    assert_levels(&rt, rt.alloc(), &edges, 0, &from_zero)?;
    let from_three = [NEVER, 2, 3, 0, NEVER, 5, NEVER, NEVER, 1, 2, 4, 3];
    assert_levels(&rt, rt.alloc(), &edges, 3, &from_three)?;
    let rank = [
        (1, 2),
        (2, 2),
        (8, 2),
        (10, 2),
        (11, 2),
        (0, 1),
        (3, 1),
        (5, 1),
    ];
    assert_rank(&rt, rt.alloc(), &edges, 12, &rank)?;
    assert_hop(&rt, rt.alloc(), &edges, 10, &[5, 10])?;
    assert_hop(&rt, rt.alloc(), &edges, 11, &[11])?;
    Ok(())
}

// The neighbours of a vertex of any graph, where it has the vertex.
fn neighbours_in<G: Graph>(graph: &mut G, v: u32, out: &mut Vec<u32>) -> Result<bool, AllocError>
    requires { G.ready graph.old }
    ensures { G.ready graph.new }
{
    if v < graph.vertices() {
        graph.neighbours(v, out)?;
        Ok(true)
    } else {
        Ok(false)
    }
}

#[test]
fn a_list_of_entries_is_a_graph(rt: HostRuntime) -> Result<(), Fail> {
    question_laws();
    let edges = [add(1, 2), add(1, 0), add(1, 2), del(1, 2)];
    assert_drawn(&rt, &edges, 3);
    let mut graph = Listed::new(&edges, 3);
    assert_eq!(rt; graph.vertices(), 3);
    let mut out = Vec::new(rt.alloc());
    assert_eq!(rt; neighbours_in(&mut graph, 1, &mut out)?, true);
    assert_eq!(rt; out.as_slice(), [0, 2].as_slice());
    assert_eq!(rt; neighbours_in(&mut graph, 3, &mut out)?, false);
    Ok(())
}
