// How the program ends.

use go_blocks::BadKind;
use go_text::{FaultKind, Text};

/// How the program ended. The exit status of the process is `number`.
#[derive(Debug, Drop)]
pub enum Status {
    /// The script was read to its end, each command was answered, and all replies were written.
    Done,
    /// The words of the command line are no command of the program.
    Words,
    /// A script's first faulty line, counted from 1, and what is wrong with it.
    Script {
        name: Text,
        line: u64,
        kind: FaultKind,
    },
    /// No text stands under the name.
    NoFile {
        name: Text,
    },
    /// A quantity is over its limit. Of a text that is too long no more than one byte over the limit is counted.
    TooMuch {
        counted: u64,
        limit: u64,
    },
    /// Reading the text of the name failed.
    ReadFault {
        name: Text,
    },
    /// The disk has neither a log file nor one that isn't made yet: the first place that offends, and what is wrong there.
    NotALog {
        at: u64,
        kind: BadKind,
    },
    /// The log file is one of another number of vertices than was asked for.
    OtherVertices {
        file: u32,
        asked: u32,
    },
    /// The disk failed. What it then has is what opening it again gives.
    DiskFault,
    /// Writing the replies failed; the first bytes of their text were written.
    WriteFault,
    /// There was no memory.
    Memory,
}

impl Status {
    ghost use Rattle.std.specs.Prelude.{◌≡◌};
    ghost use Rattle.go_run.specs.Status.{number_of};

    /// The number of the status, which is the exit status of the process.
    pub fn number(&self) -> u8
        ensures { result ≡ number_of self.now }
    {
        match self {
            Status::Done => 0,
            Status::Words => 1,
            Status::Script { .. } => 2,
            Status::NoFile { .. } => 3,
            Status::TooMuch { .. } => 4,
            Status::ReadFault { .. } => 5,
            Status::NotALog { .. } => 6,
            Status::OtherVertices { .. } => 7,
            Status::DiskFault => 8,
            Status::WriteFault => 9,
            Status::Memory => 10,
        }
    }
}
