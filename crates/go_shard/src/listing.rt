// The list of vertices that have words, so that a compaction looks at no other.
ghost use Rattle.std.specs.Prelude.{◌≡◌, ◌+◌, length, take, filter, nat_lt, OnOk, OnErr};
ghost use Rattle.go_shard.specs.Lane.{promising, lane_at};
ghost use Rattle.go_shard.specs.Listing.{HasListed};

use crate::slot::Slot;
use std::alloc::{AllocError, Global};

/// Promises a vertex places to so many more words, and lists its place where it had none and some are promised.
pub(crate) fn promise_listed(
    alloc: Global,
    slot: &mut Slot,
    listed: &mut Vec<u32>,
    place: u32,
    more: usize,
) -> Result<(), AllocError>
    ensures ok { OnOk result (slot.new ≡ promising slot.old (slot.old.promised + more)) }
    ensures err { OnErr result (slot.new ≡ slot.old) }
    ensures listed { OnOk result (HasListed place more slot.old listed.old.items listed.new.items) }
    ensures before { take (length listed.old.items) listed.new.items ≡ listed.old.items }
{
    if more == 0 {
        return Ok(());
    }
    if slot.is_bare() {
        listed.push(place)?;
    }
    slot.promise(alloc, more)
}

/// Takes the places of vertices without words off the list.
pub(crate) fn forget_bare(slots: &[Slot], listed: &mut Vec<u32>)
    ensures { listed.new.items ≡ filter (λ place. nat_lt 0 (length (lane_at slots.now place).words)) listed.old.items }
{
    listed.retain(|place| has_words(slots, *place));
}

// Whether the vertex at a place has words.
fn has_words(slots: &[Slot], place: u32) -> bool
    ensures { result ≡ nat_lt 0 (length (lane_at slots.now place).words) }
{
    match slots.get(place as usize) {
        Some(slot) => slot.has_words(),
        None => false,
    }
}
