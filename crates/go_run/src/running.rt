// Running what sessions are to do over a disk.
ghost use Rattle.std.specs.Prelude.{◌≡◌, ◌+◌, ◌<◌, ◌≤◌, ◌^◌, map, sum, sum_by, All, IfOk};
ghost use Rattle.go_text.specs.Causes.{Rose};
ghost use Rattle.go_api.specs.Limits.{IsSetup};
ghost use Rattle.go_api.specs.declared.limits.TheConstants.{LOG_ENTRIES};
ghost use Rattle.go_durable.specs.Attaching.{disk_of};
ghost use Rattle.go_run.specs.Driving.{Concludes, CountFits, NamesLists, quota_in, refusal_of, tasks_in};
ghost use Rattle.go_run.specs.Ran.{RanTasks};
ghost use Rattle.go_run.specs.Reading.{IsReady};
ghost use Rattle.go_run.specs.Run.{run_over};

use crate::driving::{Driven, drive};
use crate::outcome::Outcome;
use crate::output::{print_all, print_cut};
use crate::status::Status;
use go_api::{LOG_ENTRIES, Setup, Stop};
use go_disk::Disk;
use go_durable::{FILE_LIMIT, Finished, OpenFault, attach};
use go_io::{Gate, Sink};
use go_plain::PlainStore;
use go_session::Session;
use go_word::Edges;
use std::alloc::{AllocError, Global};

/// Opens the log of the disk, lets the sessions answer their commands over it by turns, leaves it on the disk with what they
/// put, and puts the replies into the sink, session by session. `loads` are the lists that their loads put.
pub fn run_tasks<K: Sink, D: Disk, G: Gate>(
    alloc: Global,
    setup: Setup,
    sessions: Vec<Session>,
    loads: &[Edges],
    sink: &mut K,
    disk: D,
    gate: &G,
) -> Outcome<D>
    requires setup { IsSetup setup }
    requires ready { IsReady setup.vertices (tasks_in loads.now sessions.items) loads.now sessions.items }

    ensures ran { RanTasks (run_over D.device setup disk (K.stands sink.old)) (tasks_in loads.now sessions.items) (K.stands sink.new)
        result.disk result.status }
    ensures sink_later { (K.stands sink.old).faults ≤ (K.stands sink.new).faults }
    ensures write_fault { result.status ≡ Status.WriteFault → Rose (K.stands sink.old).faults (K.stands sink.new).faults }
    ensures disk_later { D.device.faults disk ≤ D.device.faults result.disk }
    ensures disk_fault { result.status ≡ Status.DiskFault → Rose (D.device.faults disk) (D.device.faults result.disk) }
    ensures no_blunder { D.device.blunders result.disk ≡ D.device.blunders disk }
{
    let Ok(quotas) = quotas_of(alloc, &sessions, loads) else {
        return Outcome {
            status: Status::Memory,
            disk,
        };
    };
    let puts = total_of(&quotas);
    let opened = match attach(alloc, disk, setup.vertices, LOG_ENTRIES - puts) {
        Ok(opened) => opened,
        Err(fault) => return refused(fault, setup.vertices, puts),
    };
    match PlainStore::new(alloc, opened, setup, &quotas) {
        Ok(store) => conclude(alloc, drive(sessions, store, loads, gate), sink),
        Err(unmade) => Outcome {
            status: Status::Memory,
            disk: unmade.disk,
        },
    }
}

// How many entries each session may put.
fn quotas_of(alloc: Global, sessions: &[Session], loads: &[Edges]) -> Result<Vec<u64>, AllocError>
    requires lists { All (NamesLists loads.now) sessions.now }
    requires few { sum_by (quota_in loads.now) sessions.now ≤ LOG_ENTRIES }
    ensures { IfOk result (λ quotas. quotas.items ≡ map (quota_in loads.now) sessions.now) }
{
    let mut quotas = Vec::with_capacity(alloc, sessions.len())?;
    for session in sessions {
        quotas.push(session.puts(loads))?;
    }
    Ok(quotas)
}

// How many entries they may put together.
fn total_of(quotas: &[u64]) -> u64
    requires { sum quotas.now ≤ LOG_ENTRIES }
    ensures { result ≡ sum quotas.now }
{
    quotas.iter().sum()
}

// How a run ends whose log wasn't opened, where so many vertices were asked for and so many entries were to be put.
fn refused<D>(fault: OpenFault<D>, asked: u32, puts: u64) -> Outcome<D>
    requires fits { CountFits puts fault }
    ensures status { result.status ≡ refusal_of asked puts fault }
    ensures disk { result.disk ≡ disk_of fault }
{
    match fault {
        OpenFault::Bad { bad, disk } => Outcome {
            status: Status::NotALog {
                at: bad.at,
                kind: bad.kind,
            },
            disk,
        },
        OpenFault::Vertices { file, disk } => Outcome {
            status: Status::OtherVertices { file, asked },
            disk,
        },
        OpenFault::TooLong { len, disk } => Outcome {
            status: Status::TooMuch {
                counted: len,
                limit: FILE_LIMIT,
            },
            disk,
        },
        OpenFault::TooMany { count, disk } => Outcome {
            status: Status::TooMuch {
                counted: puts + count,
                limit: LOG_ENTRIES,
            },
            disk,
        },
        OpenFault::Disk { disk } => Outcome {
            status: Status::DiskFault,
            disk,
        },
        OpenFault::Memory { disk } => Outcome {
            status: Status::Memory,
            disk,
        },
    }
}

// How a run ends whose sessions came as far as they could. A fault of the disk wins over want of memory, and shows at the
// store's end, which can't bring a log up to date on a disk that failed.
fn conclude<K: Sink, D>(alloc: Global, driven: Driven<D>, sink: &mut K) -> Outcome<D>
    ensures concludes { Concludes driven.stop driven.finished.stop driven.sessions.items driven.finished.durable
        (K.stands sink.old) (K.stands sink.new) result.status }
    ensures disk { result.disk ≡ driven.finished.disk }
    ensures later { (K.stands sink.old).faults ≤ (K.stands sink.new).faults }
    ensures write_fault { result.status ≡ Status.WriteFault → Rose (K.stands sink.old).faults (K.stands sink.new).faults }
{
    let Driven {
        sessions,
        stop,
        finished: Finished {
            disk,
            durable,
            stop: last,
        },
    } = driven;
    let status = match (stop, last) {
        (None, None) => print_all(alloc, &sessions, sink),
        (_, Some(Stop::Disk)) => print_cut(alloc, &sessions, durable, sink),
        (_, Some(Stop::Memory)) | (Some(_), None) => Status::Memory,
    };
    Outcome { status, disk }
}
