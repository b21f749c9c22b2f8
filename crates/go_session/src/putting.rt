// Putting entries: one, one where there is room, and those of a file.
ghost use Rattle.std.specs.Prelude.{◌≡◌, ◌∷◌, [], false, IfOk};
ghost use Rattle.go_api.specs.Calls.{MayPut};
ghost use Rattle.go_api.specs.Standing.{IsSound};
ghost use Rattle.go_session.specs.Answers.{Answers, asking, showing};
ghost use Rattle.go_script.specs.Commands.{entry_of};
ghost use Rattle.go_script.specs.declared.command.Command.TheVariants as asks;

use crate::asking::Outcome;
use go_api::{Offer, Stop, Store};
use go_report::{LastPosition, Reply};
use go_text::Text;
use go_word::Edge;
use sqlite_items::Boxed;
use std::alloc::{AllocError, Global};

// Puts an addition or a deletion.
pub fn put<S: Store>(store: &mut S, del: bool, src: u32, dst: u32) -> Result<Outcome, Stop>
    requires { MayPut (entry_of del src dst ∷ []) (S.stands store.old) }
    ensures answers { Answers (S.looked store.old) (asking del src dst) [] result (S.stands store.old) (S.stands store.new) }
    ensures sound { IsSound (S.stands store.new) }
    ensures became { S.became store.old store.new }
{
    let position = store.put(Edge { del, src, dst })?;
    Ok(Outcome::Told {
        reply: showing(del, position),
    })
}

// The reply that shows the position of an entry.
fn showing(del: bool, position: u64) -> Reply
    ensures { result ≡ showing del position }
{
    if del {
        Reply::Deleted { position }
    } else {
        Reply::Added { position }
    }
}

// Puts an addition where the ring has room.
pub fn offer<S: Store>(store: &mut S, src: u32, dst: u32) -> Result<Outcome, Stop>
    requires { MayPut (entry_of false src dst ∷ []) (S.stands store.old) }
    ensures answers { Answers (S.looked store.old) (asks.Offer src dst) [] result (S.stands store.old) (S.stands store.new) }
    ensures sound { IsSound (S.stands store.new) }
    ensures became { S.became store.old store.new }
{
    let edge = Edge {
        del: false,
        src,
        dst,
    };
    let reply = match store.offer(edge)? {
        Offer::At { position } => Reply::Offered { position },
        Offer::Busy { head, released } => Reply::Busy { head, released },
    };
    Ok(Outcome::Told { reply })
}

// Puts the entries of a file. The memory of the reply is taken before the first one is put.
pub fn load<S: Store>(
    store: &mut S,
    alloc: Global,
    name: &Text,
    given: &[Edge],
) -> Result<Outcome, Stop>
    requires sound { IsSound (S.stands store.old) }
    requires may { MayPut given.now (S.stands store.old) }
    ensures answers { Answers (S.looked store.old) (asks.Load name.now) given.now result (S.stands store.old) (S.stands store.new) }
    ensures sound { IsSound (S.stands store.new) }
    ensures became { S.became store.old store.new }
{
    let Ok((name, mut last)) = memory_for(alloc, name) else {
        return Err(Stop::Memory);
    };
    last.set(store.put_entries(given)?);
    Ok(Outcome::Told {
        reply: Reply::Loaded {
            name,
            count: given.len() as u64,
            last,
        },
    })
}

// A copy of a name, and memory for a last position.
fn memory_for(alloc: Global, name: &Text) -> Result<(Boxed<Text>, LastPosition), AllocError>
    ensures { IfOk result (λ memory. memory.0 ≡ name.now) }
{
    let copy = Text::of(alloc, name.as_text())?;
    let copy = Boxed::new(alloc, copy)?;
    let last = LastPosition::new(alloc)?;
    Ok((copy, last))
}
