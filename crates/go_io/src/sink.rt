// A sink of bytes: the trait, and a whole piece put into it.
ghost use Rattle.std.specs.Prelude.{take, IfOk, OnOk, OnErr};
ghost use Rattle.go_text.specs.Causes.{HasCause};
ghost use Rattle.go_io.specs.Sink.{SinkState, IsTake, Takes, TakesNothing, TakesPrefix};

use go_text::Failed;

/// A sink of bytes.
pub trait Sink {
    /// How it stands: what it has taken so far, where it tells, and how often it has failed.
    ghost stands: { Self → SinkState };

    /// Takes the first bytes of a piece, and answers how many. A put that fails takes none of it.
    fn put(&mut self, bytes: &[u8]) -> Result<usize, Failed>
        ensures count { IfOk result (λ count. IsTake count bytes.now) }
        ensures taken { IfOk result (λ count. Takes (stands self.old) (stands self.new) (take count bytes.now)) }
        ensures err { OnErr result (TakesNothing (stands self.old) (stands self.new)) }
        ensures cause { HasCause (stands self.old).faults (stands self.new).faults result };
}

/// Puts a whole piece, in as many calls as the sink wants.
/// Each call takes a byte at least, so that there are no more of them than the piece has bytes.
/// After a fault the sink has taken the first bytes of the piece, maybe none, and not all of them.
pub fn put_all<K: Sink>(sink: &mut K, bytes: &[u8]) -> Result<(), Failed>
    ensures ok { OnOk result (Takes (K.stands sink.old) (K.stands sink.new) bytes.now) }
    ensures err { OnErr result (TakesPrefix (K.stands sink.old) (K.stands sink.new) bytes.now) }
    ensures cause { HasCause (K.stands sink.old).faults (K.stands sink.new).faults result }
{
    let mut done = 0;
    while done < bytes.len() {
        done += sink.put(&bytes[done..])?;
    }
    Ok(())
}
