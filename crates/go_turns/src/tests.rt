// Three seats over a ring of three shards: a part is in one hand at a time, and comes back as it was given.
ghost use Rattle.std.specs.Prelude.{◌≡◌, ◌+◌, ◌^◌, ◌<◌, ◌≤◌, IfOk, IfSome, true, []};
ghost use Rattle.go_rule.specs.Steps.{IsAt};
ghost use Rattle.go_rule.specs.Samples.{IsFree, IsArchiver};
ghost use Rattle.go_rule.specs.Views.{frame_of};
ghost use Rattle.go_turns.specs.Holding.{MayGive};
ghost use Rattle.go_turns.specs.Samples.{meaning_by, MayBring};

use crate::{Hold, Lifted, give, try_take};
use go_core::{Entry, Part, PartState, Pins, ring_words};
use go_rule::{Key, Layout, Opened, Ring, Seat, claim, load_head, load_ordered, split, store};
use go_word::{Edge, matched};
use std::alloc::{AllocError, Global};
use std::snapshot::Snapshot;
use std::test::Fail;

// A part at the beginning.
pub(crate) fn part(alloc: Global) -> PartState
    ensures { result ≡ record { front = 0; cut = 0; pins = [] } }
{
    PartState {
        front: 0,
        cut: 0,
        pins: Pins::none(alloc),
    }
}

// A ring of eight slots with three shards and the file, from position 0 on.
pub(crate) fn opened(alloc: Global) -> Result<Opened<PartState>, AllocError>
    ensures at { IfOk result (λ o. IsAt o.ring.table.shared.table_id o.seat.table_id o.seat.me.0) }
    ensures shards { IfOk result (λ o. o.ring.shards ≡ 3) }
    ensures free { IfOk result (λ o. IsFree o.seat.me) }
    ensures archiver { IfOk result (λ o. IsArchiver 0 o.seat.me.0) }
    ensures shares { IfOk result (λ o. (o.seat.me.0.share.quota ≡ 1) × (o.seat.me.0.share.lot ≡ 2 ^ 32)) }
    ensures vertices { IfOk result (λ o. o.ring.table.shared.key.layout.vertices ≡ 10) }
{
    let file = part(alloc);
    let key = Key {
        layout: Layout {
            vertices: 10,
            ring: 8,
            shards: 3,
        },
        first: 0,
        quota: 1,
        opened: Snapshot::of(&Vec::new(alloc)),
        file: Snapshot::of(&file),
    };
    let words = ring_words(alloc, 8, 8, 0)?;
    let parts = [
        Some(part(alloc)),
        Some(part(alloc)),
        Some(part(alloc)),
        Some(file),
    ];
    let slots = Vec::from_array(alloc, parts)?;
    let spare = Vec::with_capacity(alloc, 4)?;
    match Ring::open(alloc, &key, words.as_slice(), slots, spare) {
        Ok(opened) => Ok(opened),
        Err(refused) => {
            drop(refused);
            Err(AllocError)
        }
    }
}

// Puts an edge and takes it, where both can be done.
pub(crate) fn put_and_take<T: Part>(ring: &Ring<T>, seat: &mut Seat<T>, at: u64) -> bool
    requires at { IsAt ring.now.table.shared.table_id seat.old.table_id seat.old.me.0 }
    requires archiver { IsArchiver at seat.old.me.0 }
    requires quota { 1 ≤ seat.old.me.0.share.quota }
    requires vertices { ring.now.table.shared.key.layout.vertices ≡ 10 }
    ensures at { IsAt ring.now.table.shared.table_id seat.new.table_id seat.new.me.0 }
    ensures hand { (seat.new.me.0.stake ≡ seat.old.me.0.stake) × (seat.new.me.1 ≡ seat.old.me.1) }
    ensures archiver { result ≡ true → IsArchiver (at + 1) seat.new.me.0 }
    ensures quota { seat.new.me.0.share.quota + 1 ≡ seat.old.me.0.share.quota }
    ensures lot { seat.new.me.0.share.lot ≡ seat.old.me.0.share.lot }
{
    let edge = Edge {
        del: false,
        src: 0,
        dst: 1,
    };
    let first = claim(ring, seat, &[edge]);
    if first >= ring.slots {
        return false;
    }
    store(ring, seat, Entry { at: first, edge });
    let word = load_ordered(ring, seat, at);
    matched(word, at, ring.slots)
}

// Takes a part where its turn is free, and gives it back as it was: how far it reached.
fn look(ring: &Ring<PartState>, seat: &mut Seat<PartState>, place: u32) -> Option<u64>
    requires at { IsAt ring.now.table.shared.table_id seat.old.table_id seat.old.me.0 }
    requires within { place ≤ ring.now.shards }
    ensures at { IsAt ring.now.table.shared.table_id seat.new.table_id seat.new.me.0 }
    ensures hand { (seat.new.me.0.stake.notes ≡ seat.old.me.0.stake.notes) × (seat.new.me.1 ≡ seat.old.me.1) }
{
    let hold = try_take(ring, seat, place)?;
    let front = hold.part().front;
    give(ring, seat, hold);
    Some(front)
}

// Takes a shard where its turn is free, and brings it on to position 1.
pub(crate) fn take_on(
    ring: &Ring<PartState>,
    seat: &mut Seat<PartState>,
    place: u32,
) -> Option<Hold<PartState>>
    requires at { IsAt ring.now.table.shared.table_id seat.old.table_id seat.old.me.0 }
    requires may { MayBring 1 seat.old.me.0 }
    requires shard { place < ring.now.shards }
    ensures at { IsAt ring.now.table.shared.table_id seat.new.table_id seat.new.me.0 }
    ensures place { IfSome result (λ hold. hold.key.place ≡ place) }
    ensures may { IfSome result (λ hold. MayGive (meaning_by (λ s. s)) (frame_of ring.now.table.shared.key) place hold.part seat.new.me) }
{
    let mut hold = try_take(ring, seat, place)?;
    let part = hold.part_mut();
    part.front = part.front.max(1);
    Some(hold)
}

// Brings a shard on where its turn is free. Meanwhile another seat looks for it, which is told, and this one looks at the log's length.
fn bring_on_beside(
    ring: &Ring<PartState>,
    seat: &mut Seat<PartState>,
    other: &mut Seat<PartState>,
    place: u32,
) -> Option<Option<u64>>
    requires at { IsAt ring.now.table.shared.table_id seat.old.table_id seat.old.me.0 }
    requires may { MayBring 1 seat.old.me.0 }
    requires other_at { IsAt ring.now.table.shared.table_id other.old.table_id other.old.me.0 }
    requires shard { place < ring.now.shards }
    ensures at { IsAt ring.now.table.shared.table_id seat.new.table_id seat.new.me.0 }
    ensures other_at { IsAt ring.now.table.shared.table_id other.new.table_id other.new.me.0 }
{
    let hold = take_on(ring, seat, place)?;
    let found = look(ring, other, place);
    load_head(ring, seat);
    give(ring, seat, hold);
    Some(found)
}

// Takes two parts where their turns are free, looks at the log's length with both in hand, and gives them back as they were, the first
// one last: how far they reached.
fn look_at_both(
    ring: &Ring<PartState>,
    seat: &mut Seat<PartState>,
    one: u32,
    two: u32,
) -> Option<(u64, u64)>
    requires at { IsAt ring.now.table.shared.table_id seat.old.table_id seat.old.me.0 }
    requires within { (one ≤ ring.now.shards) × (two ≤ ring.now.shards) }
    ensures at { IsAt ring.now.table.shared.table_id seat.new.table_id seat.new.me.0 }
{
    let first = try_take(ring, seat, one)?;
    let Some(second) = try_take(ring, seat, two) else {
        give(ring, seat, first);
        return None;
    };
    load_head(ring, seat);
    let Lifted { key, part } = second.lift();
    let fronts = (first.part().front, part.front);
    give(ring, seat, Hold::back(key, part));
    give(ring, seat, first);
    Some(fronts)
}

#[test]
fn a_part_is_in_one_hand_and_comes_back_as_it_was_given(rt: HostRuntime) -> Result<(), Fail> {
    let Opened {
        ring,
        seat: mut archiver,
    } = opened(rt.alloc())?;
    let mut second = split(&ring, &mut archiver, 0, 1);
    let mut third = split(&ring, &mut archiver, 0, 1);
    assert!(rt; put_and_take(&ring, &mut archiver, 0));
    assert!(rt; look(&ring, &mut second, 0) == Some(0));
    assert!(rt; bring_on_beside(&ring, &mut archiver, &mut second, 0) == Some(None));
    assert!(rt; look(&ring, &mut second, 0) == Some(1) && look(&ring, &mut third, 0) == Some(1));
    assert!(rt; look_at_both(&ring, &mut third, 0, 3) == Some((1, 0)));
    assert!(rt; look_at_both(&ring, &mut third, 2, 2) == None);
    assert!(rt;
        look(&ring, &mut archiver, 2) == Some(0) && look(&ring, &mut archiver, 3) == Some(0)
    );
    Ok(())
}
