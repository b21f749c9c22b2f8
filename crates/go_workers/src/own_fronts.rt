// A front is loaded by the seat that moves it, which finds it as it knows it.
ghost use Rattle.std.specs.Prelude.{◌≡◌, true};
ghost use Rattle.atomic_table.specs.Table.{step};
ghost use mathlib.Core.Option.{none};
ghost use Rattle.go_rule.specs.Steps.{IsAt};
ghost use Rattle.go_rule.specs.Views.{frame_of};
ghost use Rattle.go_workers.specs.OwnFronts.{LoadsOwnArchived, LoadsOwnDurable};

use atomic_table::Play;
use go_core::{ARCHIVED, DURABLE, Part};
use go_rule::{Framed, Ring, Seat, SeatView};
use std::marker::{Brand, PhantomData};

/// A load of the archived front by the seat that moves it.
pub struct OwnArchived<E> {
    of: PhantomData<E>,
}

impl<T: Part, E: Framed> Play<Option<T>, SeatView<T>> for OwnArchived<E> {
    ghost then = { LoadsOwnArchived T.state_of E.frame };
}

/// A load of the durable front by the seat that moves it.
pub struct OwnDurable<E> {
    of: PhantomData<E>,
}

impl<T, E: Framed> Play<Option<T>, SeatView<T>> for OwnDurable<E> {
    ghost then = { LoadsOwnDurable E.frame };
}

// A load of the archived front by the layout that the call picks.
fn own_archived_as<T: Part, E: Framed>(ring: &Ring<T>, seat: &mut Seat<T>) -> u64
    requires at { IsAt ring.now.table.shared.table_id seat.old.table_id seat.old.me.0 }
    requires archives { seat.old.me.0.core.archives ≡ true }
    requires picked { frame_of ring.now.table.shared.key ≡ E.frame }
    ensures stays { (seat.new.table_id ≡ seat.old.table_id) × (seat.new.id ≡ seat.old.id) }
    ensures tells { LoadsOwnArchived T.state_of (frame_of ring.now.table.shared.key)
        (step ring.now.table.shared.table_id.slots 1 0 0 none) seat.old.me result seat.new.me }
{
    ring.table.shared.load::<OwnArchived<E>>(seat, ARCHIVED)
}

// Reads the archived front, by the seat that moves it.
pub(crate) fn own_archived<T: Part>(ring: &Ring<T>, seat: &mut Seat<T>) -> u64
    requires at { IsAt ring.now.table.shared.table_id seat.old.table_id seat.old.me.0 }
    requires archives { seat.old.me.0.core.archives ≡ true }
    ensures stays { (seat.new.table_id ≡ seat.old.table_id) × (seat.new.id ≡ seat.old.id) }
    ensures tells { LoadsOwnArchived T.state_of (frame_of ring.now.table.shared.key)
        (step ring.now.table.shared.table_id.slots 1 0 0 none) seat.old.me result seat.new.me }
{
    own_archived_as::<T, Brand>(ring, seat)
}

// A load of the durable front by the layout that the call picks.
fn own_durable_as<T: Part, E: Framed>(ring: &Ring<T>, seat: &mut Seat<T>) -> u64
    requires at { IsAt ring.now.table.shared.table_id seat.old.table_id seat.old.me.0 }
    requires flushes { seat.old.me.0.core.flushes ≡ true }
    requires picked { frame_of ring.now.table.shared.key ≡ E.frame }
    ensures stays { (seat.new.table_id ≡ seat.old.table_id) × (seat.new.id ≡ seat.old.id) }
    ensures tells { LoadsOwnDurable (frame_of ring.now.table.shared.key)
        (step ring.now.table.shared.table_id.slots 2 0 0 none) seat.old.me result seat.new.me }
{
    ring.table.shared.load::<OwnDurable<E>>(seat, DURABLE)
}

// Reads the durable front, by the seat that moves it.
pub(crate) fn own_durable<T: Part>(ring: &Ring<T>, seat: &mut Seat<T>) -> u64
    requires at { IsAt ring.now.table.shared.table_id seat.old.table_id seat.old.me.0 }
    requires flushes { seat.old.me.0.core.flushes ≡ true }
    ensures stays { (seat.new.table_id ≡ seat.old.table_id) × (seat.new.id ≡ seat.old.id) }
    ensures tells { LoadsOwnDurable (frame_of ring.now.table.shared.key)
        (step ring.now.table.shared.table_id.slots 2 0 0 none) seat.old.me result seat.new.me }
{
    own_durable_as::<T, Brand>(ring, seat)
}
