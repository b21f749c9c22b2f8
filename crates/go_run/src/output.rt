// Writing the replies of sessions.
ghost use Rattle.std.specs.Prelude.{◌≡◌, ◌≤◌, Some, None, IfOk};
ghost use Rattle.go_text.specs.Causes.{Rose};
ghost use Rattle.go_run.specs.Driving.{text_shown, PrintsAll, PrintsCut};

use crate::status::Status;
use go_io::{Sink, put_all};
use go_session::Session;
use std::alloc::{AllocError, Global};

/// Puts all replies into the sink, session by session, in one piece.
pub fn print_all<K: Sink>(alloc: Global, sessions: &[Session], sink: &mut K) -> Status
    ensures prints { PrintsAll sessions.now (K.stands sink.old) (K.stands sink.new) result }
    ensures later { (K.stands sink.old).faults ≤ (K.stands sink.new).faults }
    ensures fault { result ≡ Status.WriteFault → Rose (K.stands sink.old).faults (K.stands sink.new).faults }
{
    let Ok(text) = text_shown(alloc, sessions, None) else {
        return Status::Memory;
    };
    match put_all(sink, &text) {
        Ok(()) => Status::Done,
        Err(_) => Status::WriteFault,
    }
}

/// After a fault of the disk, puts the replies into the sink that rest on durable entries alone. The status is that of
/// the disk, whether the sink takes them or not.
pub fn print_cut<K: Sink>(alloc: Global, sessions: &[Session], durable: u64, sink: &mut K) -> Status
    ensures prints { PrintsCut sessions.now durable (K.stands sink.old) (K.stands sink.new) result }
    ensures later { (K.stands sink.old).faults ≤ (K.stands sink.new).faults }
{
    let Ok(text) = text_shown(alloc, sessions, Some(durable)) else {
        return Status::Memory;
    };
    let _ = put_all(sink, &text);
    Status::DiskFault
}

// The text of sessions, one after another, each cut at a front where one is given.
fn text_shown(
    alloc: Global,
    sessions: &[Session],
    durable: Option<u64>,
) -> Result<Vec<u8>, AllocError>
    ensures { IfOk result (λ text. text.items ≡ text_shown sessions.now durable) }
{
    let mut text = Vec::new(alloc);
    for session in sessions {
        session.write(durable, &mut text)?;
    }
    Ok(text)
}
