// The end of a ring: its words are read, and its parts are handed out.
ghost use Rattle.std.specs.Prelude.{◌≡◌, ◌^◌, ◌<◌, ◌≤◌, ℕ, [], map, Some, IsSome, false, slice_index_or};
ghost use Rattle.std.specs.Vec.{vec_capacity};
ghost use Rattle.std.specs.declared.option.Option.{Option as Maybe};
ghost use Rattle.std.specs.Mem.Slots.{slots_items, slots_filled, slots_len, IsFull};
ghost use mathlib.Core.Option.{some};
ghost use lib.ListN.{get_elem?};
ghost use Rattle.go_rule.specs.Meaning.{meaning};
ghost use Rattle.go_rule.specs.Steps.{IsAt};
ghost use Rattle.go_rule.specs.Closing.{IsClosed};

use crate::rule::{Ring, Seat};
use go_core::{ARCHIVED, DURABLE, HEAD, Part};
use std::alloc::Global;

/// What is left of a ring.
#[derive(Drop)]
pub struct Closed<T> {
    /// The parts, in the order of their places.
    pub parts: Vec<T>,
    /// The archived front.
    pub archived: u64,
    /// The durable front.
    pub durable: u64,
    /// The log's length.
    pub head: u64,
}

// Takes the parts, which are all at home, into a vector that has room for them.
fn take_all<T>(
    closed: &mut atomic_table::Closed<Option<T>, Global>,
    count: usize,
    mut parts: Vec<T>,
) -> Vec<T>
    requires count { slots_len closed.old.slots ≡ count }
    requires full { IsFull closed.old.slots }
    requires home { (k : ℕ) (x : Maybe T) → get_elem? (slots_items closed.old.slots) k ≡ some x → IsSome x }
    requires empty { parts.items ≡ [] }
    requires room { count ≤ vec_capacity parts }
    ensures parts { map Some result.items ≡ slots_items closed.old.slots }
    ensures out { (k : ℕ) → k < slots_len closed.new.slots → slice_index_or (slots_filled closed.new.slots) k false ≡ false }
    ensures words { closed.new.words ≡ closed.old.words }
{
    let mut place = 0;
    while place < count {
        let Some(part) = closed.take(place) else {
            unreachable!()
        };
        match parts.push(part) {
            Ok(()) => {}
            Err(_) => unreachable!(),
        }
        place += 1;
    }
    parts
}

/// Ends a ring by the seat that has the whole lot, and no part in its hand. No memory is taken.
pub fn close<T: Part>(ring: Ring<T>, seat: Seat<T>) -> Closed<T>
    requires at { IsAt ring.table.shared.table_id seat.table_id seat.me.0 }
    requires whole { seat.me.0.share.lot ≡ 2 ^ 32 }
    requires notes { seat.me.0.stake.notes ≡ [] }
    ensures left { IsClosed (meaning T.Part)
        ring.table.shared.key seat.me.0 result.parts.items result.head result.archived result.durable }
{
    let Ring {
        table,
        slots: _,
        shards: _,
        spare,
    } = ring;
    let count = table.slot_count();
    let mut closed = table.close_with(seat);
    let head = closed.word(HEAD);
    let archived = closed.word(ARCHIVED);
    let durable = closed.word(DURABLE);
    let parts = take_all(&mut closed, count, spare);
    closed.free();
    Closed {
        parts,
        archived,
        durable,
        head,
    }
}
