// The words of a claim are stored, or its entries given up.
ghost use Rattle.std.specs.Prelude.{◌≡◌, ◌+◌, ◌^◌, ◌<◌, ◌≤◌, min, true, length, All, Contains};
ghost use Rattle.atomic_table.specs.Table.{step};
ghost use mathlib.Core.Option.{none};
ghost use Rattle.go_word.specs.Word.{IsStorable};
ghost use Rattle.go_core.specs.Acts.{HasRoom};
ghost use Rattle.go_core.specs.View.{numbered};
ghost use Rattle.go_rule.specs.Steps.{IsAt, Stores};
ghost use Rattle.go_rule.specs.Views.{frame_of, with_stored, with_abandoned};
ghost use Rattle.go_ring.specs.Calls.{for_each};
ghost use Rattle.go_ring.specs.Cursors.{IsCursorAt};

use crate::cursor::Cursor;
use go_core::{Entry, Part};
use go_rule::{Ring, Seat, Store, Stored, abandon};
use go_word::{Edge, plain};
use std::marker::Brand;

// A store of the word of the entry that the call picks.
fn store_as<T: Part, E: Stored>(ring: &Ring<T>, seat: &mut Seat<T>, entry: Entry, cursor: Cursor)
    requires at { IsAt ring.now.table.shared.table_id seat.old.table_id seat.old.me.0 }
    requires picked { entry ≡ E.entry }
    requires storable { IsStorable entry.edge }
    requires pending { Contains seat.old.me.0.core.pending entry }
    requires room { HasRoom (frame_of ring.now.table.shared.key) seat.old.me.0.core entry.at }
    requires on { IsCursorAt (frame_of ring.now.table.shared.key) entry.at cursor }
    ensures stays { (seat.new.table_id ≡ seat.old.table_id) × (seat.new.id ≡ seat.old.id) }
    ensures tells { Stores entry (step ring.now.table.shared.table_id.slots 0 0 0 none) seat.old.me 0 seat.new.me }
{
    let word = plain(entry.edge) + cursor.rotation;
    ring.table
        .shared
        .store::<Store<E>>(seat, cursor.index, word);
}

// Stores the word of an entry that the seat owes, where a cursor stands and the slot is free by the fronts that the seat knows.
fn store<T: Part>(ring: &Ring<T>, seat: &mut Seat<T>, entry: Entry, cursor: Cursor)
    requires at { IsAt ring.now.table.shared.table_id seat.old.table_id seat.old.me.0 }
    requires storable { IsStorable entry.edge }
    requires pending { Contains seat.old.me.0.core.pending entry }
    requires room { HasRoom (frame_of ring.now.table.shared.key) seat.old.me.0.core entry.at }
    requires on { IsCursorAt (frame_of ring.now.table.shared.key) entry.at cursor }
    ensures stays { (seat.new.table_id ≡ seat.old.table_id) × (seat.new.id ≡ seat.old.id) }
    ensures tells { Stores entry (step ring.now.table.shared.table_id.slots 0 0 0 none) seat.old.me 0 seat.new.me }
{
    store_as::<T, Brand>(ring, seat, entry, cursor)
}

// Stores the words of edges from a position on, whose slots are free by the fronts that the seat knows.
pub(crate) fn store_all<T: Part>(ring: &Ring<T>, seat: &mut Seat<T>, first: u64, edges: &[Edge])
    requires at { IsAt ring.now.table.shared.table_id seat.old.table_id seat.old.me.0 }
    requires owed { All (Contains seat.old.me.0.core.pending) (numbered first edges.now) }
    requires storable { All IsStorable edges.now }
    requires small { first + length edges.now < 2 ^ 32 }
    requires room { first + length edges.now ≤ ring.now.slots + min seat.old.me.0.core.archived seat.old.me.0.core.durable }
    ensures stays { (seat.new.table_id ≡ seat.old.table_id) × (seat.new.id ≡ seat.old.id) }
    ensures stored { seat.new.me ≡ (for_each with_stored (numbered first edges.now) seat.old.me.0, seat.old.me.1) }
{
    let mut done = 0;
    let mut cursor = Cursor::new(ring, first);
    while done < edges.len() {
        let entry = Entry {
            at: first + done as u64,
            edge: edges[done],
        };
        store(ring, seat, entry, cursor);
        cursor = cursor.next(ring, entry.at);
        done += 1;
    }
}

// Gives up the entries of edges from a position on, once the flag was seen raised.
pub(crate) fn abandon_all<T: Part>(ring: &Ring<T>, seat: &mut Seat<T>, first: u64, edges: &[Edge])
    requires at { IsAt ring.now.table.shared.table_id seat.old.table_id seat.old.me.0 }
    requires owed { All (Contains seat.old.me.0.core.pending) (numbered first edges.now) }
    requires small { first + length edges.now < 2 ^ 32 }
    requires flagged { seat.old.me.0.told.flagged ≡ true }
    ensures stays { (seat.new.table_id ≡ seat.old.table_id) × (seat.new.id ≡ seat.old.id) }
    ensures given_up { seat.new.me ≡ (for_each with_abandoned (numbered first edges.now) seat.old.me.0, seat.old.me.1) }
{
    let mut done = 0;
    while done < edges.len() {
        let entry = Entry {
            at: first + done as u64,
            edge: edges[done],
        };
        abandon(ring, seat, entry);
        done += 1;
    }
}
