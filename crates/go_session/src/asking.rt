// The answer of a store to one command.
ghost use Rattle.go_api.specs.Standing.{IsSound};
ghost use Rattle.go_session.specs.Answers.{Answers, Suits};

use crate::buffers::Buffers;
use crate::putting::{load, offer, put};
use crate::searching::{bfs, hop, level, rank};
use crate::streaming::{close, stream, update};
use crate::viewing::{degree, drop_view, neigh, view};
use crate::waiting::{compact, sync, until};
use go_api::{Stop, Store};
use go_report::Reply;
use go_script::Command;
use go_word::Edge;

// What came of a command.
#[derive(Drop)]
pub enum Outcome {
    // It is answered.
    Told { reply: Reply },
    // It waits for more entries than the session sees, which are so many.
    NotYet { seen: u64 },
}

// Asks a store what a command wants of it. A load puts the entries that are given.
pub fn ask<S: Store>(
    command: &Command,
    given: &[Edge],
    store: &mut S,
    buffers: &mut Buffers,
) -> Result<Outcome, Stop>
    requires sound { IsSound (S.stands store.old) }
    requires suits { Suits command.now given.now (S.stands store.old) }
    ensures answers { Answers (S.looked store.old) command.now given.now result (S.stands store.old) (S.stands store.new) }
    ensures sound { IsSound (S.stands store.new) }
    ensures became { S.became store.old store.new }
{
    match command {
        Command::Add { src, dst } => put(store, false, *src, *dst),
        Command::Del { src, dst } => put(store, true, *src, *dst),
        Command::Offer { src, dst } => offer(store, *src, *dst),
        Command::Load { name } => load(store, buffers.alloc, name.get(), given),
        Command::View { place } => view(store, *place),
        Command::Drop { place } => drop_view(store, *place),
        Command::Degree { place, vertex } => degree(store, *place, *vertex),
        Command::Neigh { place, vertex } => neigh(store, buffers.alloc, *place, *vertex),
        Command::Hop { place, vertex } => hop(store, buffers.alloc, *place, *vertex),
        Command::Level {
            place,
            root,
            vertex,
        } => level(store, buffers, *place, *root, *vertex),
        Command::Bfs { place, root } => bfs(store, buffers, *place, *root),
        Command::Rank { place, count } => rank(store, buffers, *place, *count),
        Command::Stream { place } => stream(store, *place),
        Command::Close { place } => close(store, *place),
        Command::Update { place, max } => update(store, buffers.alloc, *place, *max),
        Command::Until { asked } => until(store, *asked),
        Command::Sync => sync(store),
        Command::Compact => compact(store),
    }
}
