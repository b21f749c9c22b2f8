// A batch of entries: a place for each is promised first, and then all are taken.
ghost use Rattle.std.specs.Prelude.{◌≡◌, ◌==◌, if◌then◌else◌, ℕ, ◌+◌, ◌/◌, ◌<◌, ◌^◌, length, All, fold, take, OnOk, OnErr};
ghost use Rattle.go_word.specs.Word.{IsStorable};
ghost use Rattle.go_shard.specs.Lane.{lane_at, promising, accepting, known, IsAhead, IsRestored};
ghost use Rattle.go_shard.specs.Batch.{part_of, share_of, CanPromise, CanTakeBatch, HavePromised, HaveTakenBatch};

use crate::by_groups::take_by_groups;
use crate::listing::promise_listed;
use crate::slot::Slot;
use crate::striping::Striping;
use go_word::{Edge, plain};
use std::alloc::{AllocError, Global};

// A batch with fewer entries than one for so many vertices is not grouped, since that looks at each vertex.
const FEW: usize = 4;

/// Takes the entries of the batch, each to the end of its vertex, and lists the places of vertices that had no words.
/// Where memory is refused, none is taken.
pub(crate) fn take_batch(
    alloc: Global,
    shards: Striping,
    slots: &mut [Slot],
    listed: &mut Vec<u32>,
    batch: &[Edge],
    front: u64,
) -> Result<(), AllocError>
    requires { CanTakeBatch shards front slots.old batch.now }
    ensures ok { OnOk result (HaveTakenBatch shards front batch.now slots.old slots.new listed.old.items listed.new.items) }
    ensures err { OnErr result (slots.new ≡ slots.old) }
    ensures unlisted { OnErr result (listed.new.items ≡ listed.old.items) }
{
    if slots.len() / FEW <= batch.len() {
        return take_by_groups(alloc, shards, slots, listed, batch, front);
    }
    promise_all(alloc, shards, slots, listed, batch)?;
    accept_all(shards, slots, batch, front);
    Ok(())
}

// Promises each entry of the batch a place at its vertex. Where memory is refused, nothing is promised.
fn promise_all(
    alloc: Global,
    shards: Striping,
    slots: &mut [Slot],
    listed: &mut Vec<u32>,
    batch: &[Edge],
) -> Result<(), AllocError>
    requires { CanPromise shards slots.old batch.now }
    ensures ok { OnOk result (HavePromised shards batch.now slots.old slots.new listed.old.items listed.new.items) }
    ensures err { OnErr result (slots.new ≡ slots.old) }
    ensures unlisted { OnErr result (listed.new.items ≡ listed.old.items) }
{
    let before = listed.len();
    let promised = promise_some(alloc, shards, slots, listed, batch);
    if promised.is_err() {
        listed.truncate(before);
        withdraw_all(shards, slots, batch);
    }
    promised
}

// Promises a place to one entry after another, up to where memory is refused.
fn promise_some(
    alloc: Global,
    shards: Striping,
    slots: &mut [Slot],
    listed: &mut Vec<u32>,
    batch: &[Edge],
) -> Result<(), AllocError>
    requires { CanPromise shards slots.old batch.now }
    ensures ok { OnOk result (HavePromised shards batch.now slots.old slots.new listed.old.items listed.new.items) }
    ensures kept { (place : ℕ) → IsRestored (share_of shards batch.now place) (lane_at slots.old place) (lane_at slots.new place) }
    ensures before { take (length listed.old.items) listed.new.items ≡ listed.old.items }
{
    for edge in batch {
        let place = shards.place_of(edge.src);
        promise_listed(alloc, &mut slots[place], listed, place as u32, 1)?;
    }
    Ok(())
}

// Takes back what was promised to the vertices that the batch names.
fn withdraw_all(shards: Striping, slots: &mut [Slot], batch: &[Edge])
    requires inside { All (λ e. e.src / shards < length slots.old) batch.now }
    ensures { (place : ℕ) → lane_at slots.new place
        ≡ (if share_of shards batch.now place == 0
        then lane_at slots.old place else promising (lane_at slots.old place) 0) }
{
    for edge in batch {
        slots[shards.place_of(edge.src)].withdraw();
    }
}

// Takes the entries of the batch, each of which was promised a place.
fn accept_all(shards: Striping, slots: &mut [Slot], batch: &[Edge], front: u64)
    requires inside { All (λ e. e.src / shards < length slots.old) batch.now }
    requires storable { All IsStorable batch.now }
    requires promised { (place : ℕ) → (lane_at slots.old place).promised ≡ share_of shards batch.now place }
    requires ahead { All (IsAhead front) slots.old }
    requires small { All (λ lane. known lane + length batch.now < 2 ^ 32) slots.old }
    ensures { (place : ℕ) → lane_at slots.new place
        ≡ fold (accepting front) (lane_at slots.old place) (part_of shards batch.now place) }
{
    for edge in batch {
        let word = plain(*edge);
        slots[shards.place_of(edge.src)].accept(&[word], front);
    }
}
