// Standard output, as a sink.
ghost use Rattle.std.specs.Prelude.{◌≡◌, None, take, IfOk, OnErr};
ghost use Rattle.std.specs.Io.KnownBytes.{Appends, Keeps};
ghost use Rattle.go_io.specs.Sink.{IsTake};

use crate::Sink;
use go_text::{Failed, one_more};
use std::io::{self, ErrorKind, Write};
use std::marker::Model;

/// Standard output, with no buffer of its own, seen as its count of faults. It tells nothing of what was taken.
#[derive(Drop)]
pub struct StdSink<'a, R> {
    rt: &'a R,
    faults: u64,
}

impl<'a, R> Model for StdSink<'a, R> {
    ghost use Rattle.std.specs.Prelude.{ℕ};

    ghost Value = { ℕ };

    ghost view = { λ sink. sink.faults };
}

impl<'a, R> StdSink<'a, R> {
    /// The program's standard output, which has not failed yet.
    pub fn new(rt: &'a R) -> StdSink<'a, R>
        ensures { result ≡ 0 }
    {
        StdSink { rt, faults: 0 }
    }
}

impl<R: Print> Sink for StdSink<'_, R> {
    ghost stands = { λ faults. record { taken = None; faults = faults } };

    fn put(&mut self, bytes: &[u8]) -> Result<usize, Failed> {
        let answer = write_piece(&mut io::writer(self.rt), bytes);
        if answer.is_err() {
            self.faults = one_more(self.faults);
        }
        answer
    }
}

// One write of a piece, tried again where a signal interrupts it. To take no byte of a piece that isn't empty is a fault.
pub(crate) fn write_piece<W: Write>(writer: &mut W, bytes: &[u8]) -> Result<usize, Failed>
    ensures count { IfOk result (λ count. IsTake count bytes.now) }
    ensures taken { IfOk result (λ count. Appends (W.contents writer.old) (W.contents writer.new) (take count bytes.now)) }
    ensures err { OnErr result (Keeps (W.contents writer.old) (W.contents writer.new)) }
{
    for _ in 0..u64::MAX {
        match writer.write(bytes) {
            Ok(0) if !bytes.is_empty() => return Err(Failed),
            Ok(count) => return Ok(count),
            Err(error) if error.kind() == ErrorKind::Interrupted => {}
            Err(_) => return Err(Failed),
        }
    }
    Err(Failed)
}
