// A ring is made over its parts.
ghost use Rattle.std.specs.Prelude.{◌≡◌, ◌+◌, ◌^◌, ◌<◌, ◌≤◌, [], map, flat_map, option_to_list, length, Some, IfOk, IfErr};
ghost use Rattle.std.specs.Vec.{vec_len, vec_capacity};
ghost use Rattle.go_rule.specs.declared.layout.Key.{Key as RingKey};
ghost use Rattle.go_rule.specs.Meaning.{meaning};
ghost use Rattle.go_rule.specs.Opening.{CanOpen};
ghost use Rattle.go_rule.specs.Views.{first_view};
ghost use Rattle.go_ring.specs.Openings.{IsKeyOf};

use go_core::{Part, ring_words};
use go_rule::{Key, Layout, Opened, Ring};
use go_word::Edge;
use std::alloc::Global;
use std::snapshot::Snapshot;

// Puts each part into a slot, in their order, which leaves their vector empty.
fn put_in<T>(parts: &mut Vec<T>, slots: &mut Vec<Option<T>>)
    requires empty { slots.old.items ≡ [] }
    requires room { vec_len parts.old ≤ vec_capacity slots.old }
    ensures slots { slots.new.items ≡ map Some parts.old.items }
    ensures parts { parts.new.items ≡ [] }
    ensures capacity { vec_capacity parts.new ≡ vec_capacity parts.old }
{
    parts.reverse();
    while let Some(part) = parts.pop() {
        match slots.push(Some(part)) {
            Ok(()) => {}
            Err(_) => unreachable!(),
        }
    }
}

// Takes the parts out of their slots again, in their order, into a vector that has room for them.
fn taken_out<T>(mut slots: Vec<Option<T>>, mut parts: Vec<T>) -> Vec<T>
    requires empty { parts.items ≡ [] }
    requires room { vec_len slots ≤ vec_capacity parts }
    ensures { result.items ≡ flat_map option_to_list slots.items }
{
    slots.reverse();
    while let Some(slot) = slots.pop() {
        match slot {
            Some(part) => match parts.push(part) {
                Ok(()) => {}
                Err(_) => unreachable!(),
            },
            None => {}
        }
    }
    slots.destroy_empty();
    parts
}

/// Makes a ring over its parts, a shard for each place and the file behind them, which stand for the entries before the
/// first position; of these a snapshot is handed in. The seat moves both fronts and has the whole quota and lot. Where
/// memory is wanting the parts come back.
pub fn open<T: Part>(
    alloc: Global,
    layout: Layout,
    first: u64,
    quota: u64,
    opened: Snapshot<Vec<Edge>>,
    mut parts: Vec<T>,
) -> Result<Opened<T>, Vec<T>>
    requires sizes { (0 < layout.ring) × (first + layout.ring ≤ 2 ^ 48) }
    requires count { length parts.items ≡ layout.shards + 1 }
    requires parts { (key : RingKey T) → IsKeyOf layout first quota opened.value.items parts.items key →
        CanOpen (meaning T.Part) key (map Some parts.items) }
    ensures key { IfOk result (λ o. IsKeyOf layout first quota opened.value.items parts.items o.ring.table.shared.key) }
    ensures at { IfOk result (λ o. o.seat.table_id ≡ o.ring.table.shared.table_id) }
    ensures seat { IfOk result (λ o. o.seat.me ≡ (first_view (T.mark_of o.ring.table.shared.key.file.value) o.ring.table.shared.key, [])) }
    ensures back { IfErr result (λ back. back.items ≡ parts.items) }
{
    let shards = layout.shards as usize;
    let key = Key {
        layout,
        first,
        quota,
        opened,
        file: Snapshot::of(&parts[shards]),
    };
    let Ok(words) = ring_words(alloc, 5 + shards, layout.ring, first) else {
        return Err(parts);
    };
    let Ok(mut slots) = Vec::with_capacity(alloc, parts.len()) else {
        return Err(parts);
    };
    put_in(&mut parts, &mut slots);
    match Ring::open(alloc, &key, words.as_slice(), slots, parts) {
        Ok(opened) => Ok(opened),
        Err(refused) => Err(taken_out(refused.slots, refused.spare)),
    }
}
