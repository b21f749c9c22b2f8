// A word is read ahead of its turn, where a cursor stands.
ghost use Rattle.std.specs.Prelude.{◌≡◌};
ghost use Rattle.atomic_table.specs.Table.{step};
ghost use mathlib.Core.Option.{none};
ghost use Rattle.go_core.specs.Acts.{CanReadAhead};
ghost use Rattle.go_rule.specs.Views.{frame_of};
ghost use Rattle.go_rule.specs.Steps.{IsAt, LoadsAhead};
ghost use Rattle.go_ring.specs.Cursors.{IsCursorAt};

use crate::cursor::Cursor;
use go_core::Part;
use go_rule::{Ahead, Place, Ring, Seat};
use std::marker::Brand;

// A load of the word of the position that the call picks.
fn load_ahead_as<T: Part, E: Place>(
    ring: &Ring<T>,
    seat: &mut Seat<T>,
    at: u64,
    cursor: Cursor,
) -> u64
    requires at_ring { IsAt ring.now.table.shared.table_id seat.old.table_id seat.old.me.0 }
    requires picked { (at ≡ E.at) × (ring.now.slots ≡ E.slots) }
    requires can { CanReadAhead ring.now.slots seat.old.me.0.core at }
    requires on { IsCursorAt (frame_of ring.now.table.shared.key) at cursor }
    ensures stays { (seat.new.table_id ≡ seat.old.table_id) × (seat.new.id ≡ seat.old.id) }
    ensures tells { LoadsAhead ring.now.slots at (step ring.now.table.shared.table_id.slots 0 0 0 none) seat.old.me result seat.new.me }
{
    ring.table.shared.load::<Ahead<E>>(seat, cursor.index)
}

// Reads the word of a position ahead of its turn, within the window that the seat knows.
pub(crate) fn load_ahead<T: Part>(
    ring: &Ring<T>,
    seat: &mut Seat<T>,
    at: u64,
    cursor: Cursor,
) -> u64
    requires at_ring { IsAt ring.now.table.shared.table_id seat.old.table_id seat.old.me.0 }
    requires can { CanReadAhead ring.now.slots seat.old.me.0.core at }
    requires on { IsCursorAt (frame_of ring.now.table.shared.key) at cursor }
    ensures stays { (seat.new.table_id ≡ seat.old.table_id) × (seat.new.id ≡ seat.old.id) }
    ensures tells { LoadsAhead ring.now.slots at (step ring.now.table.shared.table_id.slots 0 0 0 none) seat.old.me result seat.new.me }
{
    load_ahead_as::<T, Brand>(ring, seat, at, cursor)
}
