// Taking and giving up views, and what is read of one vertex in them.
ghost use Rattle.std.specs.Prelude.{◌≡◌, ℕ, []};
ghost use Rattle.go_api.specs.Calls.{Holds, CanRead};
ghost use Rattle.go_api.specs.declared.place.Place.TheVariants as held;
ghost use Rattle.go_api.specs.Standing.{IsSound};
ghost use Rattle.go_session.specs.Answers.{Answers};
ghost use Rattle.go_script.specs.declared.command.Command.TheVariants as asks;

use crate::asking::Outcome;
use go_api::{Stop, Store};
use go_report::{Ids, Reply};
use std::alloc::Global;

// Takes a view.
pub fn view<S: Store>(store: &mut S, place: u8) -> Result<Outcome, Stop>
    requires { Holds place held.Free (S.stands store.old) }
    ensures answers { Answers (S.looked store.old) (asks.View place) [] result (S.stands store.old) (S.stands store.new) }
    ensures sound { IsSound (S.stands store.new) }
    ensures became { S.became store.old store.new }
{
    let front = store.view(place)?;
    Ok(Outcome::Told {
        reply: Reply::Viewed { place, front },
    })
}

// Gives a view up.
pub fn drop_view<S: Store>(store: &mut S, place: u8) -> Result<Outcome, Stop>
    requires { (front : ℕ) × Holds place (held.View front) (S.stands store.old) }
    ensures answers { Answers (S.looked store.old) (asks.Drop place) [] result (S.stands store.old) (S.stands store.new) }
    ensures sound { IsSound (S.stands store.new) }
    ensures became { S.became store.old store.new }
{
    store.drop_view(place);
    Ok(Outcome::Told {
        reply: Reply::Dropped { place },
    })
}

// Counts the neighbours of a vertex.
pub fn degree<S: Store>(store: &mut S, place: u8, vertex: u32) -> Result<Outcome, Stop>
    requires { CanRead place vertex (S.stands store.old) }
    ensures answers { Answers (S.looked store.old) (asks.Degree place vertex) [] result (S.stands store.old) (S.stands store.new) }
    ensures sound { IsSound (S.stands store.new) }
    ensures became { S.became store.old store.new }
{
    let degree = store.degree(place, vertex)?;
    Ok(Outcome::Told {
        reply: Reply::Degree { vertex, degree },
    })
}

// Lists the neighbours of a vertex.
pub fn neigh<S: Store>(
    store: &mut S,
    alloc: Global,
    place: u8,
    vertex: u32,
) -> Result<Outcome, Stop>
    requires { CanRead place vertex (S.stands store.old) }
    ensures answers { Answers (S.looked store.old) (asks.Neigh place vertex) [] result (S.stands store.old) (S.stands store.new) }
    ensures sound { IsSound (S.stands store.new) }
    ensures became { S.became store.old store.new }
{
    let mut list = Vec::new(alloc);
    store.neighbours(place, vertex, &mut list)?;
    Ok(Outcome::Told {
        reply: Reply::Neighbours {
            vertex,
            list: Ids::from_vec(list),
        },
    })
}
