// What the tests share: a small file, disks that are used until they fail, and what attaching finds.
ghost use Rattle.go_word.specs.Log.{IsWithin};

use crate::{DurableLog, LogFault, OpenFault, Opened, attach};
use go_blocks::BadKind;
use go_disk::MemDisk;
use go_word::Edge;
use std::alloc::Global;
use std::process::Abort;
use std::test::Fail;

pub(crate) const VERTICES: u32 = 8;

pub(crate) const EDGE: Edge = Edge {
    del: false,
    src: 3,
    dst: 5,
};

pub(crate) const SECOND: Edge = Edge {
    del: true,
    src: 0,
    dst: 7,
};

// The file of 8 vertices and the addition of 3 to 5.
pub(crate) const FILE: [u8; 29] = [
    0x01, 0x47, 0x52, 0x4F, 0x4E, 0x45, 0x4C, 0x4F, 0x47, 0x01, 0x00, 0x08, 0x00, 0x00, 0x00, 0x01,
    0x01, 0x00, 0x00, 0x00, 0x05, 0x00, 0x00, 0x80, 0x01, 0x00, 0x00, 0x00, 0x00,
];

// How an attempt to use a disk ended.
#[derive(Drop)]
pub(crate) struct Tried {
    pub disk: MemDisk,
    // How many appends were acknowledged; None where the disk wasn't attached.
    pub acknowledged: Option<usize>,
}

// Adds one edge, or gives the disk back.
pub(crate) fn add(
    rt: &impl Abort,
    log: DurableLog<MemDisk>,
    edge: Edge,
) -> Result<DurableLog<MemDisk>, MemDisk>
    requires { IsWithin 8 edge }
{
    assert!(rt; log.front() < 1000);
    assert!(rt; log.vertices() == VERTICES);
    match log.append(&[edge]) {
        Ok(log) => Ok(log),
        Err(LogFault::Disk { disk }) => Err(disk),
        Err(LogFault::Memory { log }) => {
            assert!(rt; log.front() > 1000, "memory");
            Err(log.into_disk())
        }
    }
}

// Attaches a disk and adds two edges, one after the other, until the disk fails.
pub(crate) fn attach_and_add_two(rt: &impl Abort, alloc: Global, disk: MemDisk) -> Tried {
    let Opened { log, edges: _ } = match attach(alloc, disk, VERTICES, 10) {
        Ok(opened) => opened,
        Err(fault) => {
            return Tried {
                disk: disk_of(fault),
                acknowledged: None,
            };
        }
    };
    let log = match add(rt, log, EDGE) {
        Ok(log) => log,
        Err(disk) => {
            return Tried {
                disk,
                acknowledged: Some(0),
            };
        }
    };
    match add(rt, log, SECOND) {
        Ok(log) => Tried {
            disk: log.into_disk(),
            acknowledged: Some(2),
        },
        Err(disk) => Tried {
            disk,
            acknowledged: Some(1),
        },
    }
}

// The disk that a refusal hands back.
pub(crate) fn disk_of(fault: OpenFault<MemDisk>) -> MemDisk {
    match fault {
        OpenFault::Bad { bad: _, disk }
        | OpenFault::Vertices { file: _, disk }
        | OpenFault::TooLong { len: _, disk }
        | OpenFault::TooMany { count: _, disk }
        | OpenFault::Disk { disk }
        | OpenFault::Memory { disk } => disk,
    }
}

// A refusal without its disk.
#[derive(Clone, Copy, Debug, PartialEq, Eq)]
pub(crate) enum Refused {
    Bad(u64, BadKind),
    Vertices(u32),
    TooLong(u64),
    TooMany(u64),
    Disk,
    Memory,
}

pub(crate) fn refusal(fault: &OpenFault<MemDisk>) -> Refused {
    match fault {
        OpenFault::Bad { bad, disk: _ } => Refused::Bad(bad.at, bad.kind),
        OpenFault::Vertices { file, disk: _ } => Refused::Vertices(*file),
        OpenFault::TooLong { len, disk: _ } => Refused::TooLong(*len),
        OpenFault::TooMany { count, disk: _ } => Refused::TooMany(*count),
        OpenFault::Disk { disk: _ } => Refused::Disk,
        OpenFault::Memory { disk: _ } => Refused::Memory,
    }
}

// What a read of the whole disk gives.
pub(crate) fn bytes_of(alloc: Global, disk: &MemDisk) -> Result<Vec<u8>, Fail> {
    let mut bytes = Vec::new(alloc);
    disk.image(1, &mut bytes)?;
    Ok(bytes)
}

// What attaching bytes finds, or the refusal.
pub(crate) fn found(
    alloc: Global,
    bytes: &[u8],
    room: u64,
) -> Result<Result<Vec<Edge>, Refused>, Fail> {
    let disk = MemDisk::new(alloc, bytes, 100)?;
    match attach(alloc, disk, VERTICES, room) {
        Ok(opened) => Ok(Ok(opened.edges)),
        Err(fault) => {
            let refused = refusal(&fault);
            drop(fault);
            Ok(Err(refused))
        }
    }
}

// That each image of a disk recovers to a front of the two edges that has all acknowledged ones.
pub(crate) fn assert_recovers(
    rt: &impl Abort,
    alloc: Global,
    tried: &Tried,
    what: &str,
) -> Result<(), Fail> {
    for pick in 0..12 {
        let mut image = Vec::new(alloc);
        tried.disk.image(pick, &mut image)?;
        match found(alloc, &image, 10)? {
            Ok(edges) => {
                assert!(rt;
                    edges.len() >= tried.acknowledged.unwrap_or(0),
                    "{what}, image {pick}"
                );
                assert!(rt; [EDGE, SECOND].starts_with(&edges), "{what}, image {pick}");
            }
            Err(refused) => assert_eq!(rt; refused, Refused::Memory, "{what}, image {pick}"),
        }
    }
    Ok(())
}
