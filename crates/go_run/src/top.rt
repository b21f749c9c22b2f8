// The top call: all that the program does, over the outside that is handed in.
ghost use Rattle.std.specs.Prelude.{◌≤◌, Option, Some, length};
ghost use Rattle.go_api.specs.Limits.{IsSetup};
ghost use Rattle.go_run.specs.declared.limits.TheConstants.{EDGES};
ghost use Rattle.go_run.specs.Words.{OverAsked, setup_asked, work_asked};
ghost use Rattle.go_run.specs.Ran.{Ran};
ghost use Rattle.go_run.specs.Causes.{Causes};
ghost use Rattle.go_run.specs.Input.{Texts};
ghost use Rattle.go_run.specs.Run.{run_over, shelf_with, ShelfState};
ghost use Rattle.go_run.specs.Work.Work.{driving, generating};

use crate::generating::generate_script;
use crate::outcome::Outcome;
use crate::reading::read_scripts;
use crate::running::run_tasks;
use crate::status::Status;
use crate::wanted::{Job, Wanted};
use crate::words::read_words;
use go_api::Setup;
use go_disk::Disk;
use go_io::{Gate, Shelf, Sink};
use go_text::Text;
use std::alloc::Global;
use std::sync::Wait;
use std::thread::Threads;

/// Does what the words of the command line ask for, without the program's name: reads the scripts and what they load from
/// the shelf, or generates entries and a script over them; opens the log on the disk or makes it, answers the sessions'
/// commands by turns over its entries and those that they put, leaves all of them on the disk, and puts the replies into
/// the sink, session by session.
///
/// Every reply is the one that a prefix of one log defines, the old log and then the entries that the sessions put in the
/// order in which they put them. Stopped at any moment, the disk recovers to a part of it that has the old log.
pub fn run<R: Threads + Wait + Sync, H: Shelf, K: Sink, D: Disk + Send, G: Gate + Sync>(
    rt: &R,
    alloc: Global,
    words: &[Text],
    shelf: &mut H,
    sink: &mut K,
    disk: D,
    gate: &G,
) -> Outcome<D>
    ensures ran { OverAsked words.now (λ asked. Ran (run_over D.device (setup_asked asked) disk (K.stands sink.old)) (work_asked asked)
        (H.texts shelf.old) (K.stands sink.new) result.disk result.status) }
    ensures causes { OverAsked words.now (λ asked. Causes (run_over D.device (setup_asked asked) disk (K.stands sink.old)) (work_asked asked)
        (shelf_with (H.texts shelf.old) (H.faults shelf.old)) (shelf_with (H.texts shelf.new) (H.faults shelf.new))
        (K.stands sink.new) result.disk result.status) }
{
    let Some(wanted) = read_words(words) else {
        return Outcome {
            status: Status::Words,
            disk,
        };
    };
    let Wanted { setup, job, .. } = wanted;
    match job {
        Job::Drive { names } => match names.to_texts(alloc) {
            Ok(names) => run_with(rt, alloc, setup, &names, shelf, sink, disk, gate),
            Err(_) => Outcome {
                status: Status::Memory,
                disk,
            },
        },
        Job::Generate { edges, seed } => {
            run_generated(alloc, setup, edges, seed, sink, disk, gate)
        }
    }
}

/// The same for the names of one script up to eight, and a store of other numbers.
pub fn run_with<R: Threads + Wait + Sync, H: Shelf, K: Sink, D: Disk + Send, G: Gate + Sync>(
    _rt: &R,
    alloc: Global,
    setup: Setup,
    names: &[Text],
    shelf: &mut H,
    sink: &mut K,
    disk: D,
    gate: &G,
) -> Outcome<D>
    requires setup { IsSetup setup }
    requires some_script { 1 ≤ length names.now }
    requires few_scripts { length names.now ≤ 8 }

    ensures ran { Ran (run_over D.device setup disk (K.stands sink.old)) (Some (driving names.now))
        (H.texts shelf.old) (K.stands sink.new) result.disk result.status }
    ensures causes { Causes (run_over D.device setup disk (K.stands sink.old)) (Some (driving names.now))
        (shelf_with (H.texts shelf.old) (H.faults shelf.old)) (shelf_with (H.texts shelf.new) (H.faults shelf.new))
        (K.stands sink.new) result.disk result.status }
{
    let mut loads = Vec::new(alloc);
    match read_scripts(alloc, setup.vertices, names, shelf, &mut loads) {
        Ok(sessions) => run_tasks(alloc, setup, sessions, &loads, sink, disk, gate),
        Err(status) => Outcome { status, disk },
    }
}

// The same for the script over so many entries that are generated from a seed.
fn run_generated<K: Sink, D: Disk, G: Gate>(
    alloc: Global,
    setup: Setup,
    edges: u32,
    seed: u64,
    sink: &mut K,
    disk: D,
    gate: &G,
) -> Outcome<D>
    requires setup { IsSetup setup }
    requires few { edges ≤ EDGES }

    ensures ran { (shelf : Option Texts) → Ran (run_over D.device setup disk (K.stands sink.old)) (Some (generating edges seed))
        shelf (K.stands sink.new) result.disk result.status }
    ensures causes { (shelf : ShelfState) → Causes (run_over D.device setup disk (K.stands sink.old)) (Some (generating edges seed))
        shelf shelf (K.stands sink.new) result.disk result.status }
{
    let mut loads = Vec::new(alloc);
    match generate_script(alloc, setup.vertices, edges, seed, &mut loads) {
        Ok(sessions) => run_tasks(alloc, setup, sessions, &loads, sink, disk, gate),
        Err(status) => Outcome { status, disk },
    }
}
