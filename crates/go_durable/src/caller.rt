// A caller that goes by the public clauses alone: it attaches a disk and appends twice, whatever the disk does.
ghost use Rattle.std.specs.Prelude.{◌≡◌, ◌⊎◌, ◌+◌, ◌<◌, ◌≤◌, ◌^◌, ◌++◌, All, length, IfSome};
ghost use Rattle.go_word.specs.Log.{IsWithin};
ghost use Rattle.go_blocks.specs.File.{IsCount, IsVertexCount};
ghost use Rattle.go_durable.specs.Appending.{disk_after};
ghost use Rattle.go_durable.specs.Moments.{SettlesTo};
ghost use Rattle.go_durable.specs.Recovery.{Recovers};

use crate::{LogFault, Opened, attach};
use go_disk::Disk;
use go_word::Edge;
use std::alloc::Global;

/// A disk that was used, and the entries that it had.
#[derive(Drop)]
pub(crate) struct Used<D> {
    pub disk: D,
    pub old: Vec<Edge>,
}

/// Attaches a disk and appends twice, or as far as the disk and memory allow. None where it isn't attached.
///
/// From the first sync on, a crash at each moment leaves a file that recovers to what the disk had, to that with the
/// first entries, or to that with all: to a front of the final log.
pub(crate) fn attach_and_append_twice<D: Disk + Drop>(
    alloc: Global,
    disk: D,
    vertices: u32,
    first: &[Edge],
    second: &[Edge],
) -> Option<Used<D>>
    requires vertices { IsVertexCount vertices }
    requires first_count { IsCount (length first.now) }
    requires first_within { All (IsWithin vertices) first.now }
    requires second_count { IsCount (length second.now) }
    requires second_within { All (IsWithin vertices) second.now }

    ensures { IfSome result (λ used. SettlesTo D.device disk used.disk
        (λ image. Recovers vertices used.old.items image
        ⊎ (Recovers vertices (used.old.items ++ first.now) image
        ⊎ Recovers vertices ((used.old.items ++ first.now) ++ second.now) image))) }
{
    let Opened { log, edges: old } = match attach(alloc, disk, vertices, 1_000_000) {
        Ok(opened) => opened,
        Err(_) => return None,
    };
    let log = match log.append(first) {
        Ok(log) => log,
        Err(fault) => {
            return Some(Used {
                disk: disk_in(fault),
                old,
            });
        }
    };
    match log.append(second) {
        Ok(log) => Some(Used {
            disk: log.into_disk(),
            old,
        }),
        Err(fault) => Some(Used {
            disk: disk_in(fault),
            old,
        }),
    }
}

// The disk of a log that gave up.
fn disk_in<D>(fault: LogFault<D>) -> D
    ensures { result ≡ disk_after (Err fault) }
{
    match fault {
        LogFault::Disk { disk } => disk,
        LogFault::Memory { log } => log.into_disk(),
    }
}
