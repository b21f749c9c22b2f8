// Turns of sessions over one store: one command of each in its turn.
ghost use Rattle.std.specs.Prelude.{◌+◌};
ghost use Rattle.go_plain.specs.Plain.{HasSession};
ghost use Rattle.go_run.specs.Driving.{CanTurn, CanAllTurn, HasTurned, Rounds, in_turn};
ghost use Rattle.go_run.specs.Reading.{WaitsForCertain};

use go_api::Stop;
use go_disk::Disk;
use go_io::Gate;
use go_plain::PlainStore;
use go_session::{Session, Step};
use go_word::Edges;

/// What a round of turns came to.
#[derive(Clone, Copy)]
pub enum Round {
    /// Some session answered a command.
    Goes,
    /// All sessions have ended.
    Ended,
    /// A session was stopped, and those behind it had no turn.
    Stopped { why: Stop },
}

/// A round, with the store as it left it.
#[derive(Drop)]
pub struct Rounded<D: Disk> {
    pub round: Round,
    pub store: PlainStore<D>,
}

// A turn, with the store as it left it.
#[derive(Drop)]
struct Turned<D: Disk> {
    step: Step,
    store: PlainStore<D>,
}

/// Gives each session its turn, the first one first.
///
/// A session that waits or has ended answers nothing in its turn. Where none answers a command, all have ended: no session
/// waits for more entries than the others certainly put.
pub fn go_round<D: Disk, G: Gate>(
    sessions: &mut [Session],
    store: PlainStore<D>,
    loads: &[Edges],
    gate: &G,
) -> Rounded<D>
    requires can { CanAllTurn D.device loads.now sessions.old store }
    requires waits { WaitsForCertain loads.now sessions.old }
    ensures { Rounds D.device loads.now result.round sessions.old sessions.new store result.store }
{
    let mut store = store;
    let mut answered = false;
    for i in 0..sessions.len() {
        let turned = take_turn(&mut sessions[i], i as u8 + 1, store, loads, gate);
        store = turned.store;
        match turned.step {
            Step::Did => answered = true,
            Step::Waits { .. } | Step::Ended => {}
            Step::Stopped { why } => {
                return Rounded {
                    round: Round::Stopped { why },
                    store,
                };
            }
        }
    }
    Rounded {
        round: if answered { Round::Goes } else { Round::Ended },
        store,
    }
}

// Gives one session its turn, with the handle of its number.
fn take_turn<D: Disk, G: Gate>(
    session: &mut Session,
    number: u8,
    store: PlainStore<D>,
    loads: &[Edges],
    gate: &G,
) -> Turned<D>
    requires has { HasSession store number }
    requires can { CanTurn D.device loads.now store number session.old }
    ensures { HasTurned D.device loads.now result.step (in_turn number session.old store) (in_turn number session.new result.store) }
{
    let mut handle = store.session(number);
    let step = session.step(&mut handle, loads, gate);
    Turned {
        step,
        store: handle.back(),
    }
}
