// Loads and stores of the flag, and entries that are given up once it was seen raised. None of them waits.
ghost use Rattle.std.specs.Prelude.{◌≡◌, true, Contains};
ghost use Rattle.go_core.specs.Acts.{IsCause};
ghost use Rattle.go_rule.specs.Steps.{IsAt, LoadsFlag, StoresFlag, Abandons};
ghost use Rattle.atomic_table.specs.Table.{step};
ghost use mathlib.Core.Option.{none};

use crate::plays::{Abandon, Flag, Raise, Stored};
use crate::rule::{Ring, Seat};
use go_core::{Entry, FLAG, Part};
use std::marker::Brand;

/// Reads the flag.
pub fn load_flag<T: Part>(ring: &Ring<T>, seat: &mut Seat<T>) -> u64
    requires at { IsAt ring.now.table.shared.table_id seat.old.table_id seat.old.me.0 }
    ensures stays { (seat.new.table_id ≡ seat.old.table_id) × (seat.new.id ≡ seat.old.id) }
    ensures tells { LoadsFlag (step ring.now.table.shared.table_id.slots 3 0 0 none) seat.old.me result seat.new.me }
{
    ring.table.shared.load::<Flag>(seat, FLAG)
}

/// Raises the flag: 1 for the disk, 2 for want of memory.
pub fn store_flag<T: Part>(ring: &Ring<T>, seat: &mut Seat<T>, why: u64)
    requires at { IsAt ring.now.table.shared.table_id seat.old.table_id seat.old.me.0 }
    requires cause { IsCause why }
    ensures stays { (seat.new.table_id ≡ seat.old.table_id) × (seat.new.id ≡ seat.old.id) }
    ensures tells { StoresFlag (step ring.now.table.shared.table_id.slots 3 why 0 none) seat.old.me why seat.new.me }
{
    ring.table.shared.store::<Raise>(seat, FLAG, why)
}

// A load of the flag by which the entry that the call picks is given up.
fn abandon_as<T: Part, E: Stored>(ring: &Ring<T>, seat: &mut Seat<T>, entry: Entry) -> u64
    requires at { IsAt ring.now.table.shared.table_id seat.old.table_id seat.old.me.0 }
    requires picked { entry ≡ E.entry }
    requires pending { Contains seat.old.me.0.core.pending entry }
    requires flagged { seat.old.me.0.told.flagged ≡ true }
    ensures stays { (seat.new.table_id ≡ seat.old.table_id) × (seat.new.id ≡ seat.old.id) }
    ensures tells { Abandons entry (step ring.now.table.shared.table_id.slots 3 0 0 none) seat.old.me result seat.new.me }
{
    ring.table.shared.load::<Abandon<E>>(seat, FLAG)
}

/// Gives up an entry that the seat owes, once it has seen the flag raised.
pub fn abandon<T: Part>(ring: &Ring<T>, seat: &mut Seat<T>, entry: Entry) -> u64
    requires at { IsAt ring.now.table.shared.table_id seat.old.table_id seat.old.me.0 }
    requires pending { Contains seat.old.me.0.core.pending entry }
    requires flagged { seat.old.me.0.told.flagged ≡ true }
    ensures stays { (seat.new.table_id ≡ seat.old.table_id) × (seat.new.id ≡ seat.old.id) }
    ensures tells { Abandons entry (step ring.now.table.shared.table_id.slots 3 0 0 none) seat.old.me result seat.new.me }
{
    abandon_as::<T, Brand>(ring, seat, entry)
}
