// Waiting for entries and for the disk, and compacting.
ghost use Rattle.std.specs.Prelude.{◌≡◌, ◌≤◌, []};
ghost use Rattle.go_api.specs.declared.limits.TheConstants.{LOG_ENTRIES};
ghost use Rattle.go_api.specs.Standing.{IsSound};
ghost use Rattle.go_session.specs.Answers.{Answers};
ghost use Rattle.go_script.specs.declared.command.Command.TheVariants as asks;

use crate::asking::Outcome;
use go_api::{Reached, Stop, Store};
use go_report::Reply;

// Looks whether so many entries have come behind the old ones.
pub fn until<S: Store>(store: &mut S, asked: u64) -> Result<Outcome, Stop>
    requires sound { IsSound (S.stands store.old) }
    requires few { asked ≤ LOG_ENTRIES }
    ensures answers { Answers (S.looked store.old) (asks.Until asked) [] result (S.stands store.old) (S.stands store.new) }
    ensures sound { IsSound (S.stands store.new) }
    ensures became { S.became store.old store.new }
{
    let front = store.opened() + asked;
    match store.until(front)? {
        Reached::Yes { .. } => Ok(Outcome::Told {
            reply: Reply::Until { asked },
        }),
        Reached::NotYet { seen } => Ok(Outcome::NotYet { seen }),
    }
}

// Makes what the session has seen durable.
pub fn sync<S: Store>(store: &mut S) -> Result<Outcome, Stop>
    ensures answers { Answers (S.looked store.old) asks.Sync [] result (S.stands store.old) (S.stands store.new) }
    ensures sound { IsSound (S.stands store.new) }
    ensures became { S.became store.old store.new }
{
    let front = store.sync()?;
    Ok(Outcome::Told {
        reply: Reply::Synced { front },
    })
}

// Compacts what the store keeps.
pub fn compact<S: Store>(store: &mut S) -> Result<Outcome, Stop>
    ensures answers { Answers (S.looked store.old) asks.Compact [] result (S.stands store.old) (S.stands store.new) }
    ensures sound { IsSound (S.stands store.new) }
    ensures became { S.became store.old store.new }
{
    store.compact()?;
    Ok(Outcome::Told {
        reply: Reply::Compacted,
    })
}
