// Why a file of edges isn't read.
ghost use Rattle.std.specs.Prelude.{◌≡◌};
ghost use Rattle.go_loader.specs.declared.fault.LoadFault.TheVariants.{Memory};

use go_text::FaultKind;
use std::alloc::{AllocError, AllocFailed};
use thiserror::Error;

/// Why bytes are no file of edges.
#[derive(Clone, Copy, Debug, Error, PartialEq, Eq)]
pub enum LoadFault {
    /// The first line with a fault, counted from 1, and the kind of its first fault. In a binary file each entry counts as a line.
    #[error("a line of the edges has a fault")]
    Line { line: u64, kind: FaultKind },
    /// There isn't enough memory.
    #[error("out of memory")]
    Memory,
}

impl From<AllocError> for LoadFault {
    ghost from_gives = { λ _ fault. fault ≡ Memory };

    fn from(_error: AllocError) -> LoadFault {
        LoadFault::Memory
    }
}

impl<T: Drop> From<AllocFailed<T>> for LoadFault {
    ghost from_gives = { λ _ fault. fault ≡ Memory };

    fn from(_error: AllocFailed<T>) -> LoadFault {
        LoadFault::Memory
    }
}
