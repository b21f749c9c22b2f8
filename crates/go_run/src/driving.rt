// Bringing sessions as far as they come.
ghost use Rattle.go_run.specs.Driving.{CanAllTurn, CanDrive, Comes, HasDriven};
ghost use Rattle.go_run.specs.Reading.{WaitsForCertain};

use crate::turns::{Round, go_round};
use go_api::Stop;
use go_disk::Disk;
use go_durable::Finished;
use go_io::Gate;
use go_plain::PlainStore;
use go_session::Session;
use go_word::Edges;

/// Sessions that came as far as they could, what stopped one of them, and what is left of their store.
#[derive(Drop)]
pub struct Driven<D> {
    pub sessions: Vec<Session>,
    pub stop: Option<Stop>,
    pub finished: Finished<D>,
}

// What stopped a session, with the store as it was left.
#[derive(Drop)]
struct Left<D: Disk> {
    stop: Option<Stop>,
    store: PlainStore<D>,
}

/// Gives sessions their turns over one store, one command of each in its turn, until all have ended or one was stopped, and
/// then ends the store.
pub fn drive<D: Disk, G: Gate>(
    sessions: Vec<Session>,
    store: PlainStore<D>,
    loads: &[Edges],
    gate: &G,
) -> Driven<D>
    requires { CanDrive D.device loads.now sessions.items store }
    ensures { HasDriven D.device loads.now sessions.items store result.sessions.items result.stop result.finished }
{
    let mut sessions = sessions;
    let left = answer_all(&mut sessions, store, loads, gate);
    Driven {
        sessions,
        stop: left.stop,
        finished: left.store.finish(),
    }
}

// Goes round after round until all sessions have ended or one was stopped.
fn answer_all<D: Disk, G: Gate>(
    sessions: &mut [Session],
    store: PlainStore<D>,
    loads: &[Edges],
    gate: &G,
) -> Left<D>
    requires can { CanAllTurn D.device loads.now sessions.old store }
    requires waits { WaitsForCertain loads.now sessions.old }
    ensures { Comes D.device loads.now result.stop sessions.old sessions.new store result.store }
{
    let mut store = store;
    loop {
        let rounded = go_round(sessions, store, loads, gate);
        store = rounded.store;
        match rounded.round {
            Round::Goes => {}
            Round::Ended => return Left { stop: None, store },
            Round::Stopped { why } => {
                return Left {
                    stop: Some(why),
                    store,
                };
            }
        }
    }
}
