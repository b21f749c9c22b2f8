// Parts are taken out of a ring with their turns.
ghost use Rattle.std.specs.Prelude.{◌≡◌, ◌≤◌};
ghost use Rattle.go_rule.specs.Meaning.{meaning};
ghost use Rattle.go_rule.specs.Views.{frame_of};
ghost use Rattle.go_rule.specs.Steps.{IsAt};
ghost use Rattle.go_turns.specs.Holding.{Takes, Tries};

use crate::hold::Hold;
use crate::key::TurnKey;
use go_core::{Part, TURNS};
use go_rule::{Ring, Seat, take_turn};
use std::sync::Wait;

// A turn that is taken.
const TAKEN: u32 = 1;

/// Takes the part of a place, where its turn is free: a shard, or the file behind them.
pub fn try_take<T: Part>(ring: &Ring<T>, seat: &mut Seat<T>, place: u32) -> Option<Hold<T>>
    requires at { IsAt ring.now.table.shared.table_id seat.old.table_id seat.old.me.0 }
    requires within { place ≤ ring.now.shards }
    ensures stays { (seat.new.table_id ≡ seat.old.table_id) × (seat.new.id ≡ seat.old.id) }
    ensures tries { Tries (meaning T.Part) (frame_of ring.now.table.shared.key) ring.now.table.shared.table_id.slots place seat.old.me result seat.new.me }
{
    if take_turn(ring, seat, u64::from(place)) != 0 {
        return None;
    }
    let Some(part) = ring.table.shared.exchange(seat, place as usize, None) else {
        unreachable!()
    };
    Some(Hold::back(TurnKey { place }, part))
}

/// Takes the part of a place. Where its turn is taken, it sleeps until that is given back, and tries again, for ever if need be.
pub fn take<T: Part, R: Wait>(rt: &R, ring: &Ring<T>, seat: &mut Seat<T>, place: u32) -> Hold<T>
    requires at { IsAt ring.now.table.shared.table_id seat.old.table_id seat.old.me.0 }
    requires within { place ≤ ring.now.shards }
    ensures stays { (seat.new.table_id ≡ seat.old.table_id) × (seat.new.id ≡ seat.old.id) }
    ensures takes { (result.key.place ≡ place) × Takes (meaning T.Part) (frame_of ring.now.table.shared.key) place result.part seat.old.me seat.new.me }
{
    for _ in rt.forever() {
        match try_take(ring, seat, place) {
            Some(hold) => return hold,
            None => ring.table.shared.park(rt, TURNS + place as usize, TAKEN),
        }
    }
    unreachable!()
}
