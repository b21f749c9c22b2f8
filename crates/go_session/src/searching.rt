// What is asked of a whole view: hops, levels, their counts, and ranks.
ghost use Rattle.std.specs.Prelude.{◌≡◌, ◌<◌, []};
ghost use Rattle.go_api.specs.Standing.{IsSound};
ghost use Rattle.go_session.specs.Answers.{Answers};
ghost use Rattle.go_script.specs.declared.command.Command.TheVariants as asks;
ghost use Rattle.go_session.specs.Searches.{IsViewAt};

use crate::asking::Outcome;
use crate::buffers::Buffers;
use crate::kernels::{counts_at, hop_at, levels_at, rank_at};
use go_api::{Stop, Store};
use go_report::{Ids, RankList, Reply};
use sqlite_items::Boxed;
use std::alloc::Global;

// Lists the distinct neighbours of a vertex.
pub fn hop<S: Store>(store: &mut S, alloc: Global, place: u8, vertex: u32) -> Result<Outcome, Stop>
    requires ready { IsViewAt place (S.stands store.old) }
    requires there { vertex < (S.stands store.old).terms.vertices }
    ensures answers { Answers (S.looked store.old) (asks.Hop place vertex) [] result (S.stands store.old) (S.stands store.new) }
    ensures sound { IsSound (S.stands store.new) }
    ensures became { S.became store.old store.new }
{
    let mut list = Vec::new(alloc);
    hop_at(store, place, vertex, &mut list)?;
    Ok(Outcome::Told {
        reply: Reply::Hop {
            vertex,
            list: Ids::from_vec(list),
        },
    })
}

// Tells how far a vertex is from a root.
pub fn level<S: Store>(
    store: &mut S,
    buffers: &mut Buffers,
    place: u8,
    root: u32,
    vertex: u32,
) -> Result<Outcome, Stop>
    requires ready { IsViewAt place (S.stands store.old) }
    requires root { root < (S.stands store.old).terms.vertices }
    requires there { vertex < (S.stands store.old).terms.vertices }
    ensures answers { Answers (S.looked store.old) (asks.Level place root vertex) [] result (S.stands store.old) (S.stands store.new) }
    ensures sound { IsSound (S.stands store.new) }
    ensures became { S.became store.old store.new }
{
    levels_at(store, place, root, &mut buffers.work, &mut buffers.levels)?;
    Ok(Outcome::Told {
        reply: Reply::Level {
            root,
            vertex,
            level: buffers.levels[vertex as usize],
        },
    })
}

// Lists the first vertices by their numbers of neighbours.
pub fn rank<S: Store>(
    store: &mut S,
    buffers: &mut Buffers,
    place: u8,
    count: u32,
) -> Result<Outcome, Stop>
    requires ready { IsViewAt place (S.stands store.old) }
    ensures answers { Answers (S.looked store.old) (asks.Rank place count) [] result (S.stands store.old) (S.stands store.new) }
    ensures sound { IsSound (S.stands store.new) }
    ensures became { S.became store.old store.new }
{
    let mut list = Vec::new(buffers.alloc);
    rank_at(store, place, count, &mut buffers.work, &mut list)?;
    Ok(Outcome::Told {
        reply: Reply::Rank {
            list: RankList::from_vec(list),
        },
    })
}

// Counts the vertices at each level from a root.
pub fn bfs<S: Store>(
    store: &mut S,
    buffers: &mut Buffers,
    place: u8,
    root: u32,
) -> Result<Outcome, Stop>
    requires ready { IsViewAt place (S.stands store.old) }
    requires root { root < (S.stands store.old).terms.vertices }
    ensures answers { Answers (S.looked store.old) (asks.Bfs place root) [] result (S.stands store.old) (S.stands store.new) }
    ensures sound { IsSound (S.stands store.new) }
    ensures became { S.became store.old store.new }
{
    let mut counts = Vec::new(buffers.alloc);
    let unreached = counts_at(store, place, root, &mut buffers.work, &mut counts)?;
    let Ok(counts) = Boxed::new(buffers.alloc, Ids::from_vec(counts)) else {
        return Err(Stop::Memory);
    };
    Ok(Outcome::Told {
        reply: Reply::Levels {
            root,
            counts,
            unreached,
        },
    })
}
