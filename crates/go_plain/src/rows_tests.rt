// Questions to one front again and again: the answers are right before its rows are listed, from them, and after they are gone.

use crate::PlainSession;
use crate::fixture::{
    add, assert_neighbours, degree, del, drop_view, first_session, put_all, turn, view,
};
use go_api::Store;
use go_disk::MemDisk;
use go_word::{Edge, neighbours_of};
use std::alloc::Global;
use std::process::Abort;
use std::test::Fail;

// That each of the eight vertices has the neighbours in the view at a place that these entries make.
fn assert_view(
    rt: &impl Abort,
    alloc: Global,
    session: &mut PlainSession<MemDisk>,
    place: u8,
    edges: &[Edge],
) -> Result<(), Fail> {
    let mut want = Vec::new(alloc);
    for vertex in 0..8 {
        neighbours_of(edges, vertex, &mut want)?;
        assert_neighbours(rt, alloc, session, place, vertex, &want)?;
    }
    Ok(())
}

#[test]
fn rows_are_listed_once_as_many_questions_came_as_there_are_vertices(
    rt: HostRuntime,
) -> Result<(), Fail> {
    let mut session = first_session(rt.alloc(), 4)?;
    let edges = [
        add(1, 2),
        add(1, 3),
        add(1, 2),
        del(1, 2),
        add(7, 0),
        add(0, 7),
    ];
    put_all(&mut session, &edges)?;
    view(&mut session, 0)?;
    for _ in 0..8 {
        assert_neighbours(&rt, rt.alloc(), &mut session, 0, 1, &[3, 2])?;
    }
    assert_eq!(rt; session.rows(), 0);
    assert_neighbours(&rt, rt.alloc(), &mut session, 0, 1, &[3, 2])?;
    assert_eq!(rt; session.rows(), 8);
    assert_view(&rt, rt.alloc(), &mut session, 0, &edges)?;
    assert_eq!(rt; degree(&mut session, 0, 1)?, 2);
    assert_eq!(rt; session.rows(), 8);
    Ok(())
}

#[test]
fn lists_of_vertices_in_their_order_are_kept_as_rows(rt: HostRuntime) -> Result<(), Fail> {
    let mut session = first_session(rt.alloc(), 4)?;
    let edges = [add(0, 2), add(1, 3), add(0, 2), del(0, 2), add(2, 0)];
    put_all(&mut session, &edges)?;
    view(&mut session, 0)?;
    for (vertex, rows) in [(1, 0), (0, 1), (2, 1), (1, 2), (0, 2), (2, 3)] {
        let mut want = Vec::new(rt.alloc());
        neighbours_of(&edges, vertex, &mut want)?;
        assert_neighbours(&rt, rt.alloc(), &mut session, 0, vertex, &want)?;
        assert_eq!(rt; session.rows(), rows, "after {vertex}");
    }
    // A list of a later front is no row of this one.
    put_all(&mut session, &[add(3, 3)])?;
    view(&mut session, 1)?;
    assert_neighbours(&rt, rt.alloc(), &mut session, 1, 3, &[3])?;
    assert_eq!(rt; session.rows(), 3);
    assert_view(&rt, rt.alloc(), &mut session, 0, &edges)?;
    assert_eq!(rt; session.rows(), 8);
    Ok(())
}

#[test]
fn rows_stay_those_of_their_front_over_puts_and_compactions(rt: HostRuntime) -> Result<(), Fail> {
    let mut session = first_session(rt.alloc(), 4)?;
    let early = [add(1, 2), add(1, 3), add(1, 2), del(1, 2), add(7, 0)];
    put_all(&mut session, &early)?;
    view(&mut session, 0)?;
    assert_view(&rt, rt.alloc(), &mut session, 0, &early)?;
    assert_view(&rt, rt.alloc(), &mut session, 0, &early)?;
    put_all(&mut session, &[del(1, 3), add(2, 1), del(7, 0)])?;
    view(&mut session, 1)?;
    assert_view(&rt, rt.alloc(), &mut session, 0, &early)?;
    assert_eq!(rt; session.compact(), Ok(()));
    assert_eq!(rt; session.rows(), 8);
    assert_view(&rt, rt.alloc(), &mut session, 0, &early)?;
    assert_neighbours(&rt, rt.alloc(), &mut session, 1, 1, &[2])?;
    assert_neighbours(&rt, rt.alloc(), &mut session, 1, 7, &[])?;
    assert_eq!(rt; session.rows(), 8);
    Ok(())
}

#[test]
fn rows_go_to_the_front_that_is_asked_again_and_again(rt: HostRuntime) -> Result<(), Fail> {
    let mut session = first_session(rt.alloc(), 2)?;
    let all = [add(1, 2), add(1, 3), del(1, 2), add(4, 4)];
    put_all(&mut session, &[add(1, 2), add(1, 3)])?;
    view(&mut session, 0)?;
    put_all(&mut session, &[del(1, 2), add(4, 4)])?;
    view(&mut session, 1)?;
    // Questions to two fronts by turns begin the count anew.
    for _ in 0..9 {
        assert_neighbours(&rt, rt.alloc(), &mut session, 0, 1, &[2, 3])?;
        assert_neighbours(&rt, rt.alloc(), &mut session, 1, 1, &[3])?;
    }
    assert_eq!(rt; session.rows(), 0);
    assert_view(&rt, rt.alloc(), &mut session, 1, &all)?;
    assert_view(&rt, rt.alloc(), &mut session, 0, &all[..2])?;
    assert_view(&rt, rt.alloc(), &mut session, 1, &all)?;
    assert_eq!(rt; session.rows(), 8);
    assert_view(&rt, rt.alloc(), &mut session, 0, &all[..2])?;
    assert_view(&rt, rt.alloc(), &mut session, 1, &all)?;
    // Rows that are there go with a view of their front.
    drop_view(&mut session, 1)?;
    assert_eq!(rt; session.rows(), 8);
    drop_view(&mut session, 0)?;
    assert_eq!(rt; session.rows(), 0);
    Ok(())
}

#[test]
fn rows_serve_the_views_of_another_session(rt: HostRuntime) -> Result<(), Fail> {
    let mut one = first_session(rt.alloc(), 2)?;
    let edges = [add(1, 2), add(3, 3), del(1, 2)];
    put_all(&mut one, &edges)?;
    view(&mut one, 0)?;
    assert_view(&rt, rt.alloc(), &mut one, 0, &edges)?;
    assert_view(&rt, rt.alloc(), &mut one, 0, &edges)?;
    let mut two = turn(one.back(), 2)?;
    view(&mut two, 3)?;
    assert_view(&rt, rt.alloc(), &mut two, 3, &edges)?;
    assert_eq!(rt; two.rows(), 8);
    // They go with the first view of their front, and may come again.
    drop_view(&mut two, 3)?;
    assert_eq!(rt; two.rows(), 0);
    let mut one = turn(two.back(), 1)?;
    assert_view(&rt, rt.alloc(), &mut one, 0, &edges)
}
