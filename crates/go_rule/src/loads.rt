// Loads of the log's length and of the fronts, and of words ahead of their turn. None of them waits.
ghost use Rattle.std.specs.Prelude.{◌≡◌};
ghost use Rattle.go_core.specs.Acts.{CanReadAhead};
ghost use Rattle.go_rule.specs.Views.{frame_of};
ghost use Rattle.go_rule.specs.Steps.{IsAt, CanEnd, LoadsHead, LoadsArchived, LoadsDurable, LoadsEnding, LoadsAhead};
ghost use Rattle.atomic_table.specs.Table.{step};
ghost use mathlib.Core.Option.{none};

use crate::plays::{Ahead, Archived, Durable, Ending, Ends, Framed, Head, Place};
use crate::rule::{Ring, Seat};
use go_core::{ARCHIVED, DURABLE, HEAD, Part};
use std::marker::Brand;

// A load of the log's length by the layout that the call picks.
fn load_head_as<T: Part, E: Framed>(ring: &Ring<T>, seat: &mut Seat<T>) -> u64
    requires at { IsAt ring.now.table.shared.table_id seat.old.table_id seat.old.me.0 }
    requires picked { frame_of ring.now.table.shared.key ≡ E.frame }
    ensures stays { (seat.new.table_id ≡ seat.old.table_id) × (seat.new.id ≡ seat.old.id) }
    ensures tells { LoadsHead (frame_of ring.now.table.shared.key) (step ring.now.table.shared.table_id.slots 0 0 0 none) seat.old.me result seat.new.me }
{
    ring.table.shared.load::<Head<E>>(seat, HEAD)
}

/// Reads the log's length.
pub fn load_head<T: Part>(ring: &Ring<T>, seat: &mut Seat<T>) -> u64
    requires at { IsAt ring.now.table.shared.table_id seat.old.table_id seat.old.me.0 }
    ensures stays { (seat.new.table_id ≡ seat.old.table_id) × (seat.new.id ≡ seat.old.id) }
    ensures tells { LoadsHead (frame_of ring.now.table.shared.key) (step ring.now.table.shared.table_id.slots 0 0 0 none) seat.old.me result seat.new.me }
{
    load_head_as::<T, Brand>(ring, seat)
}

// A load of the archived front by the layout that the call picks.
fn load_archived_as<T: Part, E: Framed>(ring: &Ring<T>, seat: &mut Seat<T>) -> u64
    requires at { IsAt ring.now.table.shared.table_id seat.old.table_id seat.old.me.0 }
    requires picked { frame_of ring.now.table.shared.key ≡ E.frame }
    ensures stays { (seat.new.table_id ≡ seat.old.table_id) × (seat.new.id ≡ seat.old.id) }
    ensures tells { LoadsArchived T.state_of (frame_of ring.now.table.shared.key)
        (step ring.now.table.shared.table_id.slots 1 0 0 none) seat.old.me result seat.new.me }
{
    ring.table.shared.load::<Archived<E>>(seat, ARCHIVED)
}

/// Reads the archived front.
pub fn load_archived<T: Part>(ring: &Ring<T>, seat: &mut Seat<T>) -> u64
    requires at { IsAt ring.now.table.shared.table_id seat.old.table_id seat.old.me.0 }
    ensures stays { (seat.new.table_id ≡ seat.old.table_id) × (seat.new.id ≡ seat.old.id) }
    ensures tells { LoadsArchived T.state_of (frame_of ring.now.table.shared.key)
        (step ring.now.table.shared.table_id.slots 1 0 0 none) seat.old.me result seat.new.me }
{
    load_archived_as::<T, Brand>(ring, seat)
}

// A load of the durable front by the layout that the call picks.
fn load_durable_as<T: Part, E: Framed>(ring: &Ring<T>, seat: &mut Seat<T>) -> u64
    requires at { IsAt ring.now.table.shared.table_id seat.old.table_id seat.old.me.0 }
    requires picked { frame_of ring.now.table.shared.key ≡ E.frame }
    ensures stays { (seat.new.table_id ≡ seat.old.table_id) × (seat.new.id ≡ seat.old.id) }
    ensures tells { LoadsDurable (frame_of ring.now.table.shared.key) (step ring.now.table.shared.table_id.slots 2 0 0 none) seat.old.me result seat.new.me }
{
    ring.table.shared.load::<Durable<E>>(seat, DURABLE)
}

/// Reads the durable front.
pub fn load_durable<T: Part>(ring: &Ring<T>, seat: &mut Seat<T>) -> u64
    requires at { IsAt ring.now.table.shared.table_id seat.old.table_id seat.old.me.0 }
    ensures stays { (seat.new.table_id ≡ seat.old.table_id) × (seat.new.id ≡ seat.old.id) }
    ensures tells { LoadsDurable (frame_of ring.now.table.shared.key) (step ring.now.table.shared.table_id.slots 2 0 0 none) seat.old.me result seat.new.me }
{
    load_durable_as::<T, Brand>(ring, seat)
}

// A load of the durable front at the end that the call picks.
fn load_ending_as<T: Part, E: Ends>(ring: &Ring<T>, seat: &mut Seat<T>, end: u64) -> u64
    requires at { IsAt ring.now.table.shared.table_id seat.old.table_id seat.old.me.0 }
    requires picked { (frame_of ring.now.table.shared.key ≡ E.frame) × (end ≡ E.end) }
    requires copied { CanEnd ring.now.slots seat.old.me.0 end }
    ensures stays { (seat.new.table_id ≡ seat.old.table_id) × (seat.new.id ≡ seat.old.id) }
    ensures tells { LoadsEnding (frame_of ring.now.table.shared.key) end (step ring.now.table.shared.table_id.slots 2 0 0 none) seat.old.me result seat.new.me }
{
    ring.table.shared.load::<Ending<E>>(seat, DURABLE)
}

/// Reads the durable front at the end of a copy: what was copied up to there is seen.
pub fn load_ending<T: Part>(ring: &Ring<T>, seat: &mut Seat<T>, end: u64) -> u64
    requires at { IsAt ring.now.table.shared.table_id seat.old.table_id seat.old.me.0 }
    requires copied { CanEnd ring.now.slots seat.old.me.0 end }
    ensures stays { (seat.new.table_id ≡ seat.old.table_id) × (seat.new.id ≡ seat.old.id) }
    ensures tells { LoadsEnding (frame_of ring.now.table.shared.key) end (step ring.now.table.shared.table_id.slots 2 0 0 none) seat.old.me result seat.new.me }
{
    load_ending_as::<T, Brand>(ring, seat, end)
}

// A load of the word of the position that the call picks.
fn load_ahead_as<T: Part, E: Place>(ring: &Ring<T>, seat: &mut Seat<T>, at: u64) -> u64
    requires at_ring { IsAt ring.now.table.shared.table_id seat.old.table_id seat.old.me.0 }
    requires picked { (at ≡ E.at) × (ring.now.slots ≡ E.slots) }
    requires can { CanReadAhead ring.now.slots seat.old.me.0.core at }
    ensures stays { (seat.new.table_id ≡ seat.old.table_id) × (seat.new.id ≡ seat.old.id) }
    ensures tells { LoadsAhead ring.now.slots at (step ring.now.table.shared.table_id.slots 0 0 0 none) seat.old.me result seat.new.me }
{
    let place = ring.place(at);
    ring.table.shared.load::<Ahead<E>>(seat, place)
}

/// Reads the word of a position ahead of its turn, within the window that the seat knows.
pub fn load_ahead<T: Part>(ring: &Ring<T>, seat: &mut Seat<T>, at: u64) -> u64
    requires at_ring { IsAt ring.now.table.shared.table_id seat.old.table_id seat.old.me.0 }
    requires can { CanReadAhead ring.now.slots seat.old.me.0.core at }
    ensures stays { (seat.new.table_id ≡ seat.old.table_id) × (seat.new.id ≡ seat.old.id) }
    ensures tells { LoadsAhead ring.now.slots at (step ring.now.table.shared.table_id.slots 0 0 0 none) seat.old.me result seat.new.me }
{
    load_ahead_as::<T, Brand>(ring, seat, at)
}
