// A seat is split in two, and two are joined.
ghost use Rattle.std.specs.Prelude.{◌≡◌, ◌<◌, ◌≤◌, []};
ghost use Rattle.go_rule.specs.Views.{sharing, shared, joining_seat};
ghost use Rattle.go_rule.specs.Steps.{IsAt};

use crate::plays::{Cut, Shares, Tie};
use crate::rule::{Ring, Seat};
use go_core::Part;
use std::marker::Brand;

// A split by the shares that the call picks.
fn split_as<T: Part, E: Shares>(
    ring: &Ring<T>,
    seat: &mut Seat<T>,
    _quota: u64,
    _lot: u64,
) -> Seat<T>
    requires at { IsAt ring.now.table.shared.table_id seat.old.table_id seat.old.me.0 }
    requires quota { E.quota ≤ seat.old.me.0.share.quota }
    requires some { 1 ≤ E.lot }
    requires lot { E.lot < seat.old.me.0.share.lot }
    ensures stays { (seat.new.table_id ≡ seat.old.table_id) × (seat.new.id ≡ seat.old.id) × (result.table_id ≡ seat.old.table_id) }
    ensures shares { seat.new.me ≡ (sharing E.quota E.lot seat.old.me.0, seat.old.me.1) }
    ensures new { result.me ≡ (shared E.quota E.lot seat.old.me.0, []) }
{
    ring.table.shared.split_seat::<Cut<E>>(seat)
}

/// Splits a new seat off, which gets so much of the quota and of the lot. Who moves both fronts gives the durable one away.
pub fn split<T: Part>(ring: &Ring<T>, seat: &mut Seat<T>, quota: u64, lot: u64) -> Seat<T>
    requires at { IsAt ring.now.table.shared.table_id seat.old.table_id seat.old.me.0 }
    requires quota { quota ≤ seat.old.me.0.share.quota }
    requires some { 1 ≤ lot }
    requires lot { lot < seat.old.me.0.share.lot }
    ensures stays { (seat.new.table_id ≡ seat.old.table_id) × (seat.new.id ≡ seat.old.id) × (result.table_id ≡ seat.old.table_id) }
    ensures shares { seat.new.me ≡ (sharing quota lot seat.old.me.0, seat.old.me.1) }
    ensures new { result.me ≡ (shared quota lot seat.old.me.0, []) }
{
    split_as::<T, Brand>(ring, seat, quota, lot)
}

/// Joins another seat in, which owes no word and holds no part: what it has goes over.
pub fn join<T: Part>(ring: &Ring<T>, seat: &mut Seat<T>, other: Seat<T>)
    requires at { IsAt ring.now.table.shared.table_id seat.old.table_id seat.old.me.0 }
    requires other_at { IsAt ring.now.table.shared.table_id other.table_id other.me.0 }
    requires pending { other.me.0.core.pending ≡ [] }
    requires notes { other.me.0.stake.notes ≡ [] }
    requires slots { other.me.1 ≡ [] }
    ensures stays { (seat.new.table_id ≡ seat.old.table_id) × (seat.new.id ≡ seat.old.id) }
    ensures joins { seat.new.me ≡ (joining_seat seat.old.me.0 other.me.0, seat.old.me.1) }
{
    ring.table.shared.join_seat::<Tie>(seat, other)
}
