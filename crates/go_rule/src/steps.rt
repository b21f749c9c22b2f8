// Claims of positions, and stores of the words of entries. None of them waits.
ghost use Rattle.std.specs.Prelude.{◌≡◌, ◌≤◌, length, All, Contains};
ghost use Rattle.go_word.specs.Word.{IsStorable};
ghost use Rattle.go_core.specs.Acts.{HasRoom};
ghost use Rattle.go_rule.specs.Rule.{IsBelow};
ghost use Rattle.go_rule.specs.Views.{frame_of};
ghost use Rattle.go_rule.specs.Steps.{IsAt, Claims, Stores};
ghost use Rattle.atomic_table.specs.Table.{step};
ghost use mathlib.Core.Option.{none};

use crate::plays::{Claim, Edges, Store, Stored};
use crate::rule::{Ring, Seat};
use go_core::{Entry, HEAD, Part};
use go_word::{Edge, encode};
use std::marker::Brand;

// A claim of the entries that the call picks.
fn claim_as<T: Part, E: Edges>(ring: &Ring<T>, seat: &mut Seat<T>, edges: &[Edge]) -> u64
    requires at { IsAt ring.now.table.shared.table_id seat.old.table_id seat.old.me.0 }
    requires picked { edges.now ≡ E.edges }
    requires storable { All IsStorable edges.now }
    requires below { All (IsBelow ring.now.table.shared.key.layout.vertices) edges.now }
    requires quota { length edges.now ≤ seat.old.me.0.share.quota }
    ensures stays { (seat.new.table_id ≡ seat.old.table_id) × (seat.new.id ≡ seat.old.id) }
    ensures tells { Claims edges.now (step ring.now.table.shared.table_id.slots 0 (length edges.now) 0 none) seat.old.me result seat.new.me }
{
    ring.table
        .shared
        .fetch_add::<Claim<E>>(seat, HEAD, edges.len() as u64)
}

/// Claims positions for entries, which the seat owes from then on, and gives the first of them.
pub fn claim<T: Part>(ring: &Ring<T>, seat: &mut Seat<T>, edges: &[Edge]) -> u64
    requires at { IsAt ring.now.table.shared.table_id seat.old.table_id seat.old.me.0 }
    requires storable { All IsStorable edges.now }
    requires below { All (IsBelow ring.now.table.shared.key.layout.vertices) edges.now }
    requires quota { length edges.now ≤ seat.old.me.0.share.quota }
    ensures stays { (seat.new.table_id ≡ seat.old.table_id) × (seat.new.id ≡ seat.old.id) }
    ensures tells { Claims edges.now (step ring.now.table.shared.table_id.slots 0 (length edges.now) 0 none) seat.old.me result seat.new.me }
{
    claim_as::<T, Brand>(ring, seat, edges)
}

// A store of the word of the entry that the call picks.
fn store_as<T: Part, E: Stored>(ring: &Ring<T>, seat: &mut Seat<T>, entry: Entry)
    requires at { IsAt ring.now.table.shared.table_id seat.old.table_id seat.old.me.0 }
    requires picked { entry ≡ E.entry }
    requires storable { IsStorable entry.edge }
    requires pending { Contains seat.old.me.0.core.pending entry }
    requires room { HasRoom (frame_of ring.now.table.shared.key) seat.old.me.0.core entry.at }
    ensures stays { (seat.new.table_id ≡ seat.old.table_id) × (seat.new.id ≡ seat.old.id) }
    ensures tells { Stores entry (step ring.now.table.shared.table_id.slots 0 0 0 none) seat.old.me 0 seat.new.me }
{
    let place = ring.place(entry.at);
    let word = encode(entry.edge, entry.at, ring.slots);
    ring.table.shared.store::<Store<E>>(seat, place, word);
}

/// Stores the word of an entry that the seat owes, where its slot is free by the fronts that the seat knows.
pub fn store<T: Part>(ring: &Ring<T>, seat: &mut Seat<T>, entry: Entry)
    requires at { IsAt ring.now.table.shared.table_id seat.old.table_id seat.old.me.0 }
    requires storable { IsStorable entry.edge }
    requires pending { Contains seat.old.me.0.core.pending entry }
    requires room { HasRoom (frame_of ring.now.table.shared.key) seat.old.me.0.core entry.at }
    ensures stays { (seat.new.table_id ≡ seat.old.table_id) × (seat.new.id ≡ seat.old.id) }
    ensures tells { Stores entry (step ring.now.table.shared.table_id.slots 0 0 0 none) seat.old.me 0 seat.new.me }
{
    store_as::<T, Brand>(ring, seat, entry)
}
