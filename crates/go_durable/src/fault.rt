// Why a disk isn't attached, and why a call of a log gave up. Each answer hands back what the caller lent.
ghost use Rattle.std.specs.Prelude.{◌≡◌};
ghost use Rattle.go_durable.specs.Handing.{handed};

use crate::durable_log::DurableLog;
use go_blocks::Bad;

/// Why a disk isn't attached, with the disk.
#[derive(Drop)]
pub enum OpenFault<D> {
    /// The bytes are no log file: the first place that offends.
    Bad {
        /// The place, and what is wrong there.
        bad: Bad,
        /// The disk.
        disk: D,
    },
    /// The file is one of another number of vertices.
    Vertices {
        /// The number of vertices that the file has.
        file: u32,
        /// The disk.
        disk: D,
    },
    /// The file is longer than `FILE_LIMIT`.
    TooLong {
        /// Its length in bytes.
        len: u64,
        /// The disk.
        disk: D,
    },
    /// The log has more entries than there is room for.
    TooMany {
        /// The number of its entries.
        count: u64,
        /// The disk.
        disk: D,
    },
    /// The disk failed.
    Disk {
        /// The disk.
        disk: D,
    },
    /// Memory ran out.
    Memory {
        /// The disk.
        disk: D,
    },
}

/// Why a call of a log gave up.
#[derive(Drop)]
pub enum LogFault<D> {
    /// The disk failed. The log is spent: only attaching a disk anew tells which of its entries are there.
    Disk {
        /// The disk.
        disk: D,
    },
    /// Memory ran out. The log is as it was.
    Memory {
        /// The log.
        log: DurableLog<D>,
    },
}

impl OpenFault<()> {
    // The same fault, with the disk.
    pub(crate) fn hand<D>(self, disk: D) -> OpenFault<D>
        ensures { result ≡ handed self disk }
    {
        match self {
            OpenFault::Bad { bad, disk: () } => OpenFault::Bad { bad, disk },
            OpenFault::Vertices { file, disk: () } => OpenFault::Vertices { file, disk },
            OpenFault::TooLong { len, disk: () } => OpenFault::TooLong { len, disk },
            OpenFault::TooMany { count, disk: () } => OpenFault::TooMany { count, disk },
            OpenFault::Disk { disk: () } => OpenFault::Disk { disk },
            OpenFault::Memory { disk: () } => OpenFault::Memory { disk },
        }
    }
}
