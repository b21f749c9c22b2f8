// Turns of parts: a turn is taken with the part of its place, and is given back with it. None of these steps waits.
ghost use Rattle.std.specs.Prelude.{◌≡◌, ◌+◌, ◌≤◌};
ghost use Rattle.go_rule.specs.Meaning.{meaning};
ghost use Rattle.go_rule.specs.Views.{frame_of};
ghost use Rattle.go_rule.specs.Steps.{IsAt};
ghost use Rattle.go_rule.specs.Turns.{TakesTurn, HasPart, GivesTurn};
ghost use Rattle.atomic_table.specs.Table.{step};
ghost use mathlib.Core.Option.{none};

use crate::plays::{Give, Take, Turn};
use crate::rule::{Ring, Seat};
use go_core::{Part, TURNS};
use std::marker::Brand;

// A swap of the turn of the place that the call picks.
fn take_turn_as<T: Part, E: Turn>(ring: &Ring<T>, seat: &mut Seat<T>, place: u64) -> u64
    requires at_ring { IsAt ring.now.table.shared.table_id seat.old.table_id seat.old.me.0 }
    requires picked { (frame_of ring.now.table.shared.key ≡ E.frame) × (place ≡ E.place) }
    requires within { place ≤ ring.now.shards }
    ensures stays { (seat.new.table_id ≡ seat.old.table_id) × (seat.new.id ≡ seat.old.id) }
    ensures tells { TakesTurn (meaning T.Part) (frame_of ring.now.table.shared.key) place
        (step ring.now.table.shared.table_id.slots (4 + place) 1 0 none) seat.old.me result seat.new.me }
{
    ring.table
        .shared
        .swap::<Take<E>>(seat, TURNS + place as usize, 1)
}

/// Tries to take the turn of the part of a place: where the answer is 0 the seat has the turn, and the part in its hand.
pub fn take_turn<T: Part>(ring: &Ring<T>, seat: &mut Seat<T>, place: u64) -> u64
    requires at_ring { IsAt ring.now.table.shared.table_id seat.old.table_id seat.old.me.0 }
    requires within { place ≤ ring.now.shards }
    ensures stays { (seat.new.table_id ≡ seat.old.table_id) × (seat.new.id ≡ seat.old.id) }
    ensures tells { TakesTurn (meaning T.Part) (frame_of ring.now.table.shared.key) place
        (step ring.now.table.shared.table_id.slots (4 + place) 1 0 none) seat.old.me result seat.new.me }
{
    take_turn_as::<T, Brand>(ring, seat, place)
}

// A store of 0 on the turn of the place that the call picks.
fn give_turn_as<T: Part, E: Turn>(ring: &Ring<T>, seat: &mut Seat<T>, place: u64)
    requires at_ring { IsAt ring.now.table.shared.table_id seat.old.table_id seat.old.me.0 }
    requires picked { place ≡ E.place }
    requires within { place ≤ ring.now.shards }
    requires has { HasPart (meaning T.Part) (frame_of ring.now.table.shared.key) place
        seat.old.me }
    ensures stays { (seat.new.table_id ≡ seat.old.table_id) × (seat.new.id ≡ seat.old.id) }
    ensures tells { GivesTurn (meaning T.Part) place
        (step ring.now.table.shared.table_id.slots (4 + place) 0 0 none) seat.old.me 0 seat.new.me }
{
    ring.table
        .shared
        .store::<Give<E>>(seat, TURNS + place as usize, 0)
}

/// Gives a turn back, with the part that lies in the slot taken last: it is at home then, and anybody may take the turn.
pub fn give_turn<T: Part>(ring: &Ring<T>, seat: &mut Seat<T>, place: u64)
    requires at_ring { IsAt ring.now.table.shared.table_id seat.old.table_id seat.old.me.0 }
    requires within { place ≤ ring.now.shards }
    requires has { HasPart (meaning T.Part) (frame_of ring.now.table.shared.key) place
        seat.old.me }
    ensures stays { (seat.new.table_id ≡ seat.old.table_id) × (seat.new.id ≡ seat.old.id) }
    ensures tells { GivesTurn (meaning T.Part) place
        (step ring.now.table.shared.table_id.slots (4 + place) 0 0 none) seat.old.me 0 seat.new.me }
{
    give_turn_as::<T, Brand>(ring, seat, place)
}
