// Why a script isn't read.
ghost use Rattle.std.specs.Prelude.{◌≡◌};
ghost use Rattle.go_script.specs.declared.fault.ScriptFault.TheVariants.{Memory};
ghost use Rattle.go_script.specs.declared.fault.LineFault.TheVariants.{Fault, NoMemory};

use go_text::FaultKind;
use std::alloc::AllocError;
use thiserror::Error;

/// Why a text is no script.
#[derive(Clone, Copy, Debug, Error, PartialEq, Eq)]
pub enum ScriptFault {
    /// The first line with a fault, counted from 1, and the kind of its first fault.
    #[error("a line of the script has a fault")]
    Line { line: u64, kind: FaultKind },
    /// There isn't enough memory.
    #[error("out of memory")]
    Memory,
}

impl From<AllocError> for ScriptFault {
    ghost from_gives = { λ _ fault. fault ≡ Memory };

    fn from(_error: AllocError) -> ScriptFault {
        ScriptFault::Memory
    }
}

// Why a line is no command.
#[derive(Clone, Copy)]
pub enum LineFault {
    // Its first fault.
    Fault { kind: FaultKind },
    // There isn't enough memory.
    NoMemory,
}

impl From<AllocError> for LineFault {
    ghost from_gives = { λ _ fault. fault ≡ NoMemory };

    fn from(_error: AllocError) -> LineFault {
        LineFault::NoMemory
    }
}

impl From<FaultKind> for LineFault {
    ghost from_gives = { λ kind fault. fault ≡ Fault kind };

    fn from(kind: FaultKind) -> LineFault {
        LineFault::Fault { kind }
    }
}
