// The steps of the workers: words that are read in their turn, and stores of the fronts. None of them waits.
ghost use Rattle.std.specs.Prelude.{◌≡◌};
ghost use Rattle.go_rule.specs.Steps.{IsAt, CanTakeNext, CanArchiveTo, CanFlushTo, LoadsOrdered, StoresArchived, StoresDurable};
ghost use Rattle.atomic_table.specs.Table.{step};
ghost use mathlib.Core.Option.{none};

use crate::plays::{Archive, Flush, Ordered, Place};
use crate::rule::{Ring, Seat};
use go_core::{ARCHIVED, DURABLE, Part};
use std::marker::Brand;

// A load of the word of the position that the call picks.
fn load_ordered_as<T: Part, E: Place>(ring: &Ring<T>, seat: &mut Seat<T>, at: u64) -> u64
    requires at_ring { IsAt ring.now.table.shared.table_id seat.old.table_id seat.old.me.0 }
    requires picked { (at ≡ E.at) × (ring.now.slots ≡ E.slots) }
    requires can { CanTakeNext seat.old.me.0 at }
    ensures stays { (seat.new.table_id ≡ seat.old.table_id) × (seat.new.id ≡ seat.old.id) }
    ensures tells { LoadsOrdered ring.now.slots at (step ring.now.table.shared.table_id.slots 0 0 0 none) seat.old.me result seat.new.me }
{
    let place = ring.place(at);
    ring.table.shared.load::<Ordered<E>>(seat, place)
}

/// Reads the word of a position in its turn: where it is matched the worker has taken it.
pub fn load_ordered<T: Part>(ring: &Ring<T>, seat: &mut Seat<T>, at: u64) -> u64
    requires at_ring { IsAt ring.now.table.shared.table_id seat.old.table_id seat.old.me.0 }
    requires can { CanTakeNext seat.old.me.0 at }
    ensures stays { (seat.new.table_id ≡ seat.old.table_id) × (seat.new.id ≡ seat.old.id) }
    ensures tells { LoadsOrdered ring.now.slots at (step ring.now.table.shared.table_id.slots 0 0 0 none) seat.old.me result seat.new.me }
{
    load_ordered_as::<T, Brand>(ring, seat, at)
}

/// Stores the archived front, to where each shard is known to have stood.
pub fn store_archived<T: Part>(ring: &Ring<T>, seat: &mut Seat<T>, front: u64)
    requires at { IsAt ring.now.table.shared.table_id seat.old.table_id seat.old.me.0 }
    requires can { CanArchiveTo ring.now.shards seat.old.me.0 front }
    ensures stays { (seat.new.table_id ≡ seat.old.table_id) × (seat.new.id ≡ seat.old.id) }
    ensures tells { StoresArchived (step ring.now.table.shared.table_id.slots 1 front 0 none) seat.old.me front seat.new.me }
{
    ring.table.shared.store::<Archive>(seat, ARCHIVED, front)
}

/// Stores the durable front, no further than the file is known to have stood.
pub fn store_durable<T: Part>(ring: &Ring<T>, seat: &mut Seat<T>, front: u64)
    requires at { IsAt ring.now.table.shared.table_id seat.old.table_id seat.old.me.0 }
    requires can { CanFlushTo ring.now.shards seat.old.me.0 front }
    ensures stays { (seat.new.table_id ≡ seat.old.table_id) × (seat.new.id ≡ seat.old.id) }
    ensures tells { StoresDurable (step ring.now.table.shared.table_id.slots 2 front 0 none) seat.old.me front seat.new.me }
{
    ring.table.shared.store::<Flush>(seat, DURABLE, front)
}
