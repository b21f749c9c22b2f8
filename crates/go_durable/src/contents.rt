// What a file stands for, read from its bytes.
ghost use Rattle.std.specs.Prelude.{◌≡◌, ◌≤◌, [], length, IfErr, MatchResult};
ghost use Rattle.go_blocks.specs.File.{IsUnmade};
ghost use Rattle.go_durable.specs.Attaching.{Refuses};
ghost use Rattle.go_durable.specs.Reading.{IsContents, IsNoFaultOfADisk};

use crate::fault::OpenFault;
use crate::limits::FILE_LIMIT;
use go_blocks::{BlockPlace, FIRST_GATE, FileFault, read_file};
use go_word::Edge;
use std::alloc::Global;

/// What a file stands for, and where.
#[derive(Drop)]
pub(crate) struct Contents {
    pub edges: Vec<Edge>,
    pub places: Vec<BlockPlace>,
    pub gate: u64,
}

// Those of a file that was just made.
pub(crate) fn contents_of_none(alloc: Global) -> Contents
    ensures edges { result.edges.items ≡ [] }
    ensures places { result.places.items ≡ [] }
    ensures gate { result.gate ≡ FIRST_GATE }
{
    Contents {
        edges: Vec::new(alloc),
        places: Vec::new(alloc),
        gate: FIRST_GATE,
    }
}

// Those that bytes have, if they are a file of so many vertices and of no more entries than there is room for.
pub(crate) fn contents_of(
    alloc: Global,
    bytes: &[u8],
    vertices: u32,
    room: u64,
) -> Result<Contents, OpenFault<()>>
    requires fits { length bytes.now ≤ FILE_LIMIT }
    requires made { IsUnmade bytes.now → ⊥ }
    ensures answer { MatchResult result (IsContents vertices room bytes.now) (Refuses vertices room bytes.now) }
    ensures cause { IfErr result IsNoFaultOfADisk }
{
    let file = match read_file(alloc, bytes) {
        Ok(file) => file,
        Err(FileFault::Bad { bad }) => return Err(OpenFault::Bad { bad, disk: () }),
        Err(FileFault::Memory) => return Err(OpenFault::Memory { disk: () }),
    };
    if file.vertices() != vertices {
        return Err(OpenFault::Vertices {
            file: file.vertices(),
            disk: (),
        });
    }
    let count = file.edges().len() as u64;
    if room < count {
        return Err(OpenFault::TooMany { count, disk: () });
    }
    let gate = file.gate();
    let (edges, places) = file.into_parts();
    Ok(Contents {
        edges,
        places,
        gate,
    })
}
