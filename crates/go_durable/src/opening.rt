// Attaching a disk: its file is read, or made where it wasn't yet.
ghost use Rattle.std.specs.Prelude.{◌≡◌, ◌≤◌, IfOk, length};
ghost use Rattle.go_blocks.specs.File.{IsVertexCount};
ghost use Rattle.go_durable.specs.Attaching.{IsAnswerOf, IsOpenedFor, LeavesUntouched, OpensOver, TellsFault, disk_in};
ghost use Rattle.go_durable.specs.Handing.{kept_of, result_of};
ghost use Rattle.go_durable.specs.LogState.{IsSound};
ghost use Rattle.go_durable.specs.Moments.{SettlesTo};
ghost use Rattle.go_durable.specs.Recovery.{Recovers};
ghost use Rattle.go_durable.specs.Standing.{IsOpened};

use crate::contents::{Contents, contents_of, contents_of_none};
use crate::durable_log::{DurableLog, Opened};
use crate::fault::OpenFault;
use crate::making::make;
use crate::whole::read_whole;
use go_blocks::unmade;
use go_disk::Disk;
use std::alloc::Global;

/// Opens the log of a disk, for entries of `vertices` vertices and with room for `room` of them. A file that wasn't made
/// yet is made.
///
/// In this order: a sync; `TooLong` where the file has more than `FILE_LIMIT` bytes; its bytes are read, if it has some;
/// `Bad` where they are neither a file that wasn't made yet nor a file of a log; `Vertices` where it is one of another
/// number of vertices; `TooMany` where it has more than `room` entries; the making. `Disk` comes where a call of the disk
/// fails, and `Memory` where there is none for the bytes or the entries. Each refusal hands the disk back.
pub fn attach<D: Disk>(
    alloc: Global,
    disk: D,
    vertices: u32,
    room: u64,
) -> Result<Opened<D>, OpenFault<D>>
    requires { IsVertexCount vertices }

    // What is answered is that of the bytes on the disk.
    ensures answer { IsAnswerOf vertices room (D.device.contents disk) result }
    ensures log { IfOk result (IsOpenedFor D.device vertices disk) }

    // What a crash at each moment of the call may leave.
    ensures moments { OpensOver D.device vertices disk result }
    ensures recovers { IfOk result (λ found. SettlesTo D.device disk found.log.disk (Recovers vertices found.edges)) }
    ensures untouched { LeavesUntouched D.device disk result }

    ensures fault { TellsFault D.device disk result }
    ensures count { D.device.faults disk ≤ D.device.faults (disk_in result) }
{
    let mut disk = disk;
    match open(alloc, &mut disk, vertices, room) {
        Ok(contents) => Ok(opened(disk, vertices, contents)),
        Err(refused) => Err(refused.hand(disk)),
    }
}

// What the file of a disk has, or why it is refused; one that wasn't made yet is made.
fn open<D: Disk>(
    alloc: Global,
    disk: &mut D,
    vertices: u32,
    room: u64,
) -> Result<Contents, OpenFault<()>>
    requires { IsVertexCount vertices }
    ensures answer { IsAnswerOf vertices room (D.device.contents disk.old) (result_of vertices disk.new result) }
    ensures log { IfOk result (λ contents.
        IsOpenedFor D.device vertices disk.old (record { log = kept_of vertices disk.new contents; edges = contents.edges.items })) }
    ensures sound { IfOk result (λ contents. IsSound vertices (length contents.edges.items) contents.gate contents.places.items) }
    ensures moments { OpensOver D.device vertices disk.old (result_of vertices disk.new result) }
    ensures untouched { LeavesUntouched D.device disk.old (result_of vertices disk.new result) }
    ensures fault { TellsFault D.device disk.old (result_of vertices disk.new result) }
    ensures count { D.device.faults disk.old ≤ D.device.faults disk.new }
{
    let Ok(()) = disk.sync() else {
        return Err(OpenFault::Disk { disk: () });
    };
    let bytes = match read_whole(alloc, disk) {
        Ok(bytes) => bytes,
        Err(refused) => return Err(refused),
    };
    if unmade(&bytes) {
        let Ok(()) = make(disk, bytes.len(), vertices) else {
            return Err(OpenFault::Disk { disk: () });
        };
        return Ok(contents_of_none(alloc));
    }
    match contents_of(alloc, &bytes, vertices, room) {
        Ok(contents) => Ok(contents),
        Err(refused) => Err(refused),
    }
}

// The log of these contents, with its entries.
fn opened<D: Disk>(disk: D, vertices: u32, contents: Contents) -> Opened<D>
    requires opened { IsOpened D.device (record { log = kept_of vertices disk contents; edges = contents.edges.items }) }
    requires sound { IsSound vertices (length contents.edges.items) contents.gate contents.places.items }
    ensures { result ≡ record { log = kept_of vertices disk contents; edges = contents.edges.items } }
{
    let Contents {
        edges,
        places,
        gate,
    } = contents;
    let front = edges.len() as u64;
    let log = DurableLog {
        disk,
        vertices,
        front,
        gate,
        places,
    };
    Opened { log, edges }
}
