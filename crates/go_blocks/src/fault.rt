// Why bytes are no log file.
ghost use Rattle.std.specs.Prelude.{◌≡◌};
ghost use Rattle.go_blocks.specs.declared.fault.FileFault.TheVariants.{Memory};
ghost use Rattle.go_blocks.specs.declared.fault.FileFault.TheVariants as faults;

use std::alloc::{AllocError, AllocFailed};
use thiserror::Error;

/// What is wrong at the first place that offends.
#[derive(Clone, Copy, Debug, PartialEq, Eq)]
pub enum BadKind {
    /// The gate of the header is closed, or a letter differs.
    Magic,
    /// The version is another one.
    Version,
    /// The number of vertices is 0 or over the limit.
    Vertices,
    /// The count of a block is 0 or over the limit.
    Count,
    /// The bytes end within the field, or a block doesn't end with a gate.
    Short,
    /// A word is rotated, or has a vertex that is not below the number of vertices.
    Word,
}

/// The first place that offends, by its offset in bytes.
#[derive(Clone, Copy, Debug, PartialEq, Eq)]
pub struct Bad {
    /// The offset.
    pub at: u64,
    /// What is wrong there.
    pub kind: BadKind,
}

/// Why a file was not read.
#[derive(Clone, Copy, Debug, PartialEq, Eq, Error)]
pub enum FileFault {
    /// The bytes are no log file.
    #[error("the bytes are no log file")]
    Bad {
        /// The first place that offends.
        bad: Bad,
    },
    /// Memory ran out.
    #[error("out of memory")]
    Memory,
}

impl From<Bad> for FileFault {
    ghost from_gives = { λ bad e. e ≡ faults.Bad bad };

    fn from(bad: Bad) -> FileFault {
        FileFault::Bad { bad }
    }
}

impl From<AllocError> for FileFault {
    ghost from_gives = { λ _ e. e ≡ Memory };

    fn from(_e: AllocError) -> FileFault {
        FileFault::Memory
    }
}

impl<T: Drop> From<AllocFailed<T>> for FileFault {
    ghost from_gives = { λ _ e. e ≡ Memory };

    fn from(_e: AllocFailed<T>) -> FileFault {
        FileFault::Memory
    }
}
