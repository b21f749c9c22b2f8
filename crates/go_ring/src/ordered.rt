// A word is read in its turn: where it isn't matched, its position is past all that the seat has seen and taken.
ghost use Rattle.std.specs.Prelude.{◌≡◌};
ghost use Rattle.go_rule.specs.Steps.{IsAt, CanTakeNext};
ghost use Rattle.go_rule.specs.Views.{frame_of};
ghost use Rattle.go_ring.specs.Cursors.{IsCursorAt};
ghost use Rattle.go_ring.specs.Takes.{ReadsInTurn};
ghost use Rattle.atomic_table.specs.Table.{step};
ghost use mathlib.Core.Option.{none};

use crate::cursor::Cursor;
use atomic_table::Play;
use go_core::Part;
use go_rule::{Place, Ring, Seat, SeatView};
use std::marker::{Brand, PhantomData};

/// A load of a word in its turn.
pub struct InTurn<E> {
    of: PhantomData<E>,
}

impl<T, E: Place> Play<Option<T>, SeatView<T>> for InTurn<E> {
    ghost then = { ReadsInTurn E.slots E.at };
}

// A load of the word of the position that the call picks.
fn load_in_turn_as<T: Part, E: Place>(
    ring: &Ring<T>,
    seat: &mut Seat<T>,
    at: u64,
    cursor: Cursor,
) -> u64
    requires at_ring { IsAt ring.now.table.shared.table_id seat.old.table_id seat.old.me.0 }
    requires picked { (at ≡ E.at) × (ring.now.slots ≡ E.slots) }
    requires can { CanTakeNext seat.old.me.0 at }
    requires on { IsCursorAt (frame_of ring.now.table.shared.key) at cursor }
    ensures stays { (seat.new.table_id ≡ seat.old.table_id) × (seat.new.id ≡ seat.old.id) }
    ensures tells { ReadsInTurn ring.now.slots at (step ring.now.table.shared.table_id.slots 0 0 0 none) seat.old.me result seat.new.me }
{
    ring.table.shared.load::<InTurn<E>>(seat, cursor.index)
}

// Reads the word of a position in its turn, where a cursor stands: where it is matched the worker has taken it.
pub(crate) fn load_in_turn<T: Part>(
    ring: &Ring<T>,
    seat: &mut Seat<T>,
    at: u64,
    cursor: Cursor,
) -> u64
    requires at_ring { IsAt ring.now.table.shared.table_id seat.old.table_id seat.old.me.0 }
    requires can { CanTakeNext seat.old.me.0 at }
    requires on { IsCursorAt (frame_of ring.now.table.shared.key) at cursor }
    ensures stays { (seat.new.table_id ≡ seat.old.table_id) × (seat.new.id ≡ seat.old.id) }
    ensures tells { ReadsInTurn ring.now.slots at (step ring.now.table.shared.table_id.slots 0 0 0 none) seat.old.me result seat.new.me }
{
    load_in_turn_as::<T, Brand>(ring, seat, at, cursor)
}
