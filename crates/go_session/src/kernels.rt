// The kernels over a view of a store.
ghost use Rattle.std.specs.Prelude.{◌<◌, IfOk, OnOk};
ghost use Rattle.go_api.specs.Standing.{IsSound};
ghost use Rattle.go_model.specs.Counts.{AreCounts};
ghost use Rattle.go_model.specs.Hops.{IsHop};
ghost use Rattle.go_model.specs.Levels.{AreLevels};
ghost use Rattle.go_model.specs.Ranks.{IsRank};
ghost use Rattle.go_session.specs.Searches.{graph_at, IsViewAt, Leaves};

use crate::viewed::Viewed;
use go_api::{Stop, Store};
use go_kernels::{Work, hop, level_counts, levels, rank};
use go_word::Ranked;

// Gives the distinct neighbours of a vertex.
pub fn hop_at<S: Store>(
    store: &mut S,
    place: u8,
    vertex: u32,
    out: &mut Vec<u32>,
) -> Result<(), Stop>
    requires ready { IsViewAt place (S.stands store.old) }
    requires there { vertex < (S.stands store.old).terms.vertices }
    ensures found { OnOk result (IsHop (graph_at place (S.stands store.old)).log vertex out.new.items) }
    ensures left { Leaves result (S.stands store.old) (S.stands store.new) }
    ensures sound { IsSound (S.stands store.new) }
    ensures became { S.became store.old store.new }
{
    let mut graph = Viewed {
        store,
        place,
        stop: None,
    };
    match hop(&mut graph, vertex, out) {
        Ok(()) => Ok(()),
        Err(_) => Err(graph.stop.unwrap_or(Stop::Memory)),
    }
}

// Gives the level of each vertex from a root.
pub fn levels_at<S: Store>(
    store: &mut S,
    place: u8,
    root: u32,
    work: &mut Work,
    out: &mut Vec<Option<u32>>,
) -> Result<(), Stop>
    requires ready { IsViewAt place (S.stands store.old) }
    requires there { root < (S.stands store.old).terms.vertices }
    ensures found { OnOk result (AreLevels (graph_at place (S.stands store.old)).log (graph_at place (S.stands store.old)).size root out.new.items) }
    ensures left { Leaves result (S.stands store.old) (S.stands store.new) }
    ensures sound { IsSound (S.stands store.new) }
    ensures became { S.became store.old store.new }
{
    let mut graph = Viewed {
        store,
        place,
        stop: None,
    };
    match levels(&mut graph, root, work, out) {
        Ok(()) => Ok(()),
        Err(_) => Err(graph.stop.unwrap_or(Stop::Memory)),
    }
}

// Gives the number of vertices at each level from a root, and answers how many are not reached.
pub fn counts_at<S: Store>(
    store: &mut S,
    place: u8,
    root: u32,
    work: &mut Work,
    out: &mut Vec<u32>,
) -> Result<u32, Stop>
    requires ready { IsViewAt place (S.stands store.old) }
    requires there { root < (S.stands store.old).terms.vertices }
    ensures found { IfOk result (λ unreached.
        AreCounts (graph_at place (S.stands store.old)).log (graph_at place (S.stands store.old)).size root out.new.items unreached) }
    ensures left { Leaves result (S.stands store.old) (S.stands store.new) }
    ensures sound { IsSound (S.stands store.new) }
    ensures became { S.became store.old store.new }
{
    let mut graph = Viewed {
        store,
        place,
        stop: None,
    };
    match level_counts(&mut graph, root, work, out) {
        Ok(unreached) => Ok(unreached),
        Err(_) => Err(graph.stop.unwrap_or(Stop::Memory)),
    }
}

// Gives the first vertices by their numbers of neighbours.
pub fn rank_at<S: Store>(
    store: &mut S,
    place: u8,
    count: u32,
    work: &mut Work,
    out: &mut Vec<Ranked>,
) -> Result<(), Stop>
    requires ready { IsViewAt place (S.stands store.old) }
    ensures found { OnOk result (IsRank (graph_at place (S.stands store.old)).log (graph_at place (S.stands store.old)).size count out.new.items) }
    ensures left { Leaves result (S.stands store.old) (S.stands store.new) }
    ensures sound { IsSound (S.stands store.new) }
    ensures became { S.became store.old store.new }
{
    let mut graph = Viewed {
        store,
        place,
        stop: None,
    };
    match rank(&mut graph, count, work, out) {
        Ok(()) => Ok(()),
        Err(_) => Err(graph.stop.unwrap_or(Stop::Memory)),
    }
}
