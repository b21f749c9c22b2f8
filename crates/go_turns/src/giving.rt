// Parts are given back to a ring with their turns.
ghost use Rattle.std.specs.Prelude.{◌≡◌, ◌≤◌};
ghost use Rattle.go_rule.specs.Meaning.{meaning};
ghost use Rattle.go_rule.specs.Views.{frame_of};
ghost use Rattle.go_rule.specs.Steps.{IsAt};
ghost use Rattle.go_turns.specs.Holding.{MayGive, Gives};

use crate::hold::Hold;
use crate::key::TurnKey;
use go_core::{Part, TURNS};
use go_rule::{Ring, Seat, give_turn};

/// Gives a part back to the place that it was taken from, by the seat that took it, which has taken none since that it still has. Its
/// turn is free then, and one of those who sleep on it is woken.
pub fn give<T: Part>(ring: &Ring<T>, seat: &mut Seat<T>, hold: Hold<T>)
    requires at { IsAt ring.now.table.shared.table_id seat.old.table_id seat.old.me.0 }
    requires within { hold.key.place ≤ ring.now.shards }
    requires may { MayGive (meaning T.Part) (frame_of ring.now.table.shared.key) hold.key.place hold.part seat.old.me }
    ensures stays { (seat.new.table_id ≡ seat.old.table_id) × (seat.new.id ≡ seat.old.id) }
    ensures gives { Gives (meaning T.Part) hold.key.place hold.part seat.old.me seat.new.me }
{
    let Hold {
        key: TurnKey { place },
        part,
    } = hold;
    match ring.table.shared.exchange(seat, place as usize, Some(part)) {
        None => {}
        Some(_left) => unreachable!(),
    }
    give_turn(ring, seat, u64::from(place));
    ring.table.shared.wake_one(TURNS + place as usize);
}
