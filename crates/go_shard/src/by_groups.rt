// A batch that names many vertices, taken vertex by vertex.
ghost use Rattle.std.specs.Prelude.{◌≡◌, ℕ, ◌+◌, ◌<◌, ◌≤◌, ◌^◌, if◌then◌else◌, length, All, take, nat_lt, OnOk, OnErr};
ghost use Rattle.go_shard.specs.Lane.{lane_at, taking, without_last, known, IsAhead};
ghost use Rattle.go_shard.specs.Batch.{CanTakeBatch, HaveTakenBatch};
ghost use Rattle.go_shard.specs.Listing.{ListsBare, HasListed};
ghost use Rattle.go_shard.specs.Groups.{size_at, group_at, IsCut};

use crate::groups::grouped;
use crate::listing::promise_listed;
use crate::slot::Slot;
use crate::striping::Striping;
use go_word::Edge;
use std::alloc::{AllocError, Global};

/// Takes the entries of the batch, each to the end of its vertex. Where memory is refused, none is taken.
pub(crate) fn take_by_groups(
    alloc: Global,
    shards: Striping,
    slots: &mut [Slot],
    listed: &mut Vec<u32>,
    batch: &[Edge],
    front: u64,
) -> Result<(), AllocError>
    requires { CanTakeBatch shards front slots.old batch.now }
    ensures ok { OnOk result (HaveTakenBatch shards front batch.now slots.old slots.new listed.old.items listed.new.items) }
    ensures err { OnErr result (slots.new ≡ slots.old) }
    ensures unlisted { OnErr result (listed.new.items ≡ listed.old.items) }
{
    let groups = grouped(alloc, shards, slots.len(), batch)?;
    let before = listed.len();
    let reached = take_groups(alloc, slots, listed, &groups.ends, &groups.words, front);
    if reached < slots.len() {
        listed.truncate(before);
        give_back_groups(slots, &groups.ends, reached);
        return Err(AllocError);
    }
    Ok(())
}

// Takes the words of each vertex's group, vertex by vertex up to where memory is refused, and tells how many took theirs.
fn take_groups(
    alloc: Global,
    slots: &mut [Slot],
    listed: &mut Vec<u32>,
    ends: &[u32],
    words: &[u64],
    front: u64,
) -> usize
    requires places { length slots.old < 2 ^ 32 }
    requires whole { length ends.now ≡ length slots.old }
    requires cut { IsCut ends.now (length words.now) }
    requires settled { All (λ lane. lane.promised ≡ 0) slots.old }
    requires ahead { All (IsAhead front) slots.old }
    requires small { All (λ lane. known lane + length words.now < 2 ^ 32) slots.old }
    ensures within { result ≤ length slots.old }
    ensures taken { (place : ℕ) → lane_at slots.new place ≡ (if nat_lt place result
        then taking front (group_at ends.now words.now place) (lane_at slots.old place) else lane_at slots.old place) }
    ensures listed { result ≡ length slots.old → ListsBare slots.old (size_at ends.now) listed.old.items listed.new.items }
    ensures before { take (length listed.old.items) listed.new.items ≡ listed.old.items }
{
    let mut from = 0;
    for place in 0..slots.len() {
        let to = ends[place] as usize;
        let slot = &mut slots[place];
        if take_listed(alloc, slot, listed, place as u32, &words[from..to], front).is_err() {
            return place;
        }
        from = to;
    }
    slots.len()
}

// Takes the words of a vertex's group, and lists its place where it had none.
fn take_listed(
    alloc: Global,
    slot: &mut Slot,
    listed: &mut Vec<u32>,
    place: u32,
    words: &[u64],
    front: u64,
) -> Result<(), AllocError>
    requires settled { slot.old.promised ≡ 0 }
    requires ahead { IsAhead front slot.old }
    requires small { known slot.old + length words.now < 2 ^ 32 }
    ensures ok { OnOk result (slot.new ≡ taking front words.now slot.old) }
    ensures err { OnErr result (slot.new ≡ slot.old) }
    ensures listed { OnOk result (HasListed place (length words.now) slot.old listed.old.items listed.new.items) }
    ensures before { take (length listed.old.items) listed.new.items ≡ listed.old.items }
{
    promise_listed(alloc, slot, listed, place, words.len())?;
    slot.accept(words, front);
    Ok(())
}

// Takes the words of the groups of the first vertices, so many of them, away again.
fn give_back_groups(slots: &mut [Slot], ends: &[u32], count: usize)
    requires within { count ≤ length slots.old }
    requires whole { length ends.now ≡ length slots.old }
    requires cut { IsCut ends.now (2 ^ 32) }
    ensures { (place : ℕ) → lane_at slots.new place ≡ (if nat_lt place count
        then without_last (size_at ends.now place) (lane_at slots.old place) else lane_at slots.old place) }
{
    let mut from = 0;
    for place in 0..count {
        let to = ends[place];
        slots[place].give_back((to - from) as usize);
        from = to;
    }
}
