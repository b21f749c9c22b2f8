// What the walk comes to: laws above it, each proved as a clause of a function that does nothing.
ghost use Rattle.std.specs.Prelude.{◌≡◌, ℕ, ◌+◌, ◌≤◌, true, List, length, take, drop, fold, slice_get, Some};
ghost use Rattle.go_api.specs.Alone.{positions};
ghost use Rattle.go_api.specs.declared.place.Place.TheVariants as held;
ghost use Rattle.go_report.specs.declared.reply.Reply.{Reply};
ghost use Rattle.go_session.specs.Asked.{Asked};
ghost use Rattle.go_session.specs.Laws.{LeaveAlone, UpdateAlone, streamed_at};
ghost use Rattle.go_session.specs.Value.{IsValue};
ghost use Rattle.go_session.specs.Walk.{World, Walk, IsFresh, Replies, row_of, after};
ghost use Rattle.go_session.specs.Walk.Row.{value};

/// What allowed replies come to, for any world and walk; it does nothing.
///
/// Where one session alone writes, and a walk has used all of its positions, a fresh front is the log's length. All that is asked
/// of a view until it is given up is asked of the same first entries of the log. The updates of one stream, one after another,
/// are the log from where it stood to where it comes, where the log file is told.
pub fn walk_laws()
    ensures alone { (world : World) (walk : Walk) (count front : ℕ) → world.own ≡ positions world.first count → length world.log ≡ world.first + count →
        walk.used ≡ count → world.first ≤ walk.seen → IsFresh world walk front → front ≡ length world.log }
    ensures one_prefix { (world : World) (walk : Walk) (asked : List Asked) (replies : List Reply) (place front i : ℕ) (a : Asked) (reply : Reply) →
        walk.place_at place ≡ held.View front → LeaveAlone place asked → Replies world walk asked replies →
        slice_get asked i ≡ Some a → row_of a.command ≡ value place a.command → slice_get replies i ≡ Some reply →
        IsValue world.vertices (take front world.log) a.command reply }
    ensures streamed { (world : World) (walk : Walk) (asked : List Asked) (replies : List Reply) (place from to : ℕ) → world.told ≡ true →
        walk.place_at place ≡ held.Stream from → UpdateAlone place asked → Replies world walk asked replies →
        (fold after walk replies).place_at place ≡ held.Stream to → streamed_at place replies ≡ drop from (take to world.log) }
{}
