// Starting and giving up streams, and what comes of them.
ghost use Rattle.std.specs.Prelude.{◌≡◌, ℕ, []};
ghost use Rattle.go_api.specs.Calls.{Holds, CanStream};
ghost use Rattle.go_api.specs.declared.place.Place.TheVariants as held;
ghost use Rattle.go_api.specs.Standing.{IsSound};
ghost use Rattle.go_session.specs.Answers.{Answers};
ghost use Rattle.go_script.specs.declared.command.Command.TheVariants as asks;

use crate::asking::Outcome;
use go_api::{Stop, Store};
use go_report::{EdgeList, Reply};
use sqlite_items::Boxed;
use std::alloc::Global;

// Starts a stream.
pub fn stream<S: Store>(store: &mut S, place: u8) -> Result<Outcome, Stop>
    requires { Holds place held.Free (S.stands store.old) }
    ensures answers { Answers (S.looked store.old) (asks.Stream place) [] result (S.stands store.old) (S.stands store.new) }
    ensures sound { IsSound (S.stands store.new) }
    ensures became { S.became store.old store.new }
{
    let cursor = store.start_stream(place)?;
    Ok(Outcome::Told {
        reply: Reply::Streamed { place, cursor },
    })
}

// Gives a stream up.
pub fn close<S: Store>(store: &mut S, place: u8) -> Result<Outcome, Stop>
    requires { (cursor : ℕ) × Holds place (held.Stream cursor) (S.stands store.old) }
    ensures answers { Answers (S.looked store.old) (asks.Close place) [] result (S.stands store.old) (S.stands store.new) }
    ensures sound { IsSound (S.stands store.new) }
    ensures became { S.became store.old store.new }
{
    store.close_stream(place);
    Ok(Outcome::Told {
        reply: Reply::Closed { place },
    })
}

// Takes the next entries of a stream.
pub fn update<S: Store>(store: &mut S, alloc: Global, place: u8, most: u32) -> Result<Outcome, Stop>
    requires { CanStream place most (S.stands store.old) }
    ensures answers { Answers (S.looked store.old) (asks.Update place most) [] result (S.stands store.old) (S.stands store.new) }
    ensures sound { IsSound (S.stands store.new) }
    ensures became { S.became store.old store.new }
{
    let mut list = Vec::new(alloc);
    let span = store.update(place, most, &mut list)?;
    let Ok(list) = Boxed::new(alloc, EdgeList::from_vec(list)) else {
        return Err(Stop::Memory);
    };
    Ok(Outcome::Told {
        reply: Reply::Updated {
            place,
            from: span.from,
            to: span.to,
            list,
        },
    })
}
