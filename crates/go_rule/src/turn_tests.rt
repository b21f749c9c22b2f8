// Turns over a ring of three shards: a part is in one hand, and comes back as it was given.
ghost use Rattle.std.specs.Prelude.{◌≡◌, ◌<◌, IfOk, true, []};
ghost use Rattle.go_rule.specs.Steps.{IsAt};
ghost use Rattle.go_rule.specs.Samples.{IsFree, IsArchiver, KnowsOf};

use crate::{
    Key, Layout, Opened, Ring, Seat, claim, give_turn, load_ordered, store, store_archived,
    take_turn,
};
use go_core::{ARCHIVED, Entry, PartState, Pins, ring_words};
use go_word::{Edge, Pin, matched};
use std::alloc::{AllocError, Global};
use std::snapshot::Snapshot;
use std::test::Fail;

// A part at the beginning.
fn part(alloc: Global) -> PartState
    ensures { result ≡ record { front = 0; cut = 0; pins = [] } }
{
    PartState {
        front: 0,
        cut: 0,
        pins: Pins::none(alloc),
    }
}

// A ring of eight slots with three shards and the file, from position 0 on.
fn opened(alloc: Global) -> Result<Opened<PartState>, AllocError>
    ensures at { IfOk result (λ o. IsAt o.ring.table.shared.table_id o.seat.table_id o.seat.me.0) }
    ensures shards { IfOk result (λ o. o.ring.shards ≡ 3) }
    ensures free { IfOk result (λ o. IsFree o.seat.me) }
    ensures archiver { IfOk result (λ o. IsArchiver 0 o.seat.me.0) }
    ensures may_claim { IfOk result (λ o. (o.seat.me.0.share.quota ≡ 1) × (o.ring.table.shared.key.layout.vertices ≡ 10)) }
{
    let file = part(alloc);
    let key = Key {
        layout: Layout {
            vertices: 10,
            ring: 8,
            shards: 3,
        },
        first: 0,
        quota: 1,
        opened: Snapshot::of(&Vec::new(alloc)),
        file: Snapshot::of(&file),
    };
    let words = ring_words(alloc, 8, 8, 0)?;
    let mut slots = Vec::new(alloc);
    slots.push(Some(part(alloc)))?;
    slots.push(Some(part(alloc)))?;
    slots.push(Some(part(alloc)))?;
    slots.push(Some(file))?;
    let spare = Vec::with_capacity(alloc, 4)?;
    match Ring::open(alloc, &key, words.as_slice(), slots, spare) {
        Ok(opened) => Ok(opened),
        Err(refused) => {
            drop(refused);
            Err(AllocError)
        }
    }
}

// Takes a shard's turn where it is free, and gives it back with the pin of this name alone where it had none: how many it had.
fn pin(
    alloc: Global,
    ring: &Ring<PartState>,
    seat: &mut Seat<PartState>,
    place: u64,
    id: u64,
) -> Result<usize, AllocError>
    requires at { IsAt ring.now.table.shared.table_id seat.old.table_id seat.old.me.0 }
    requires free { IsFree seat.old.me }
    requires shard { place < ring.now.shards }
    ensures at { IsAt ring.now.table.shared.table_id seat.new.table_id seat.new.me.0 }
    ensures free { IfOk result (λ n. IsFree seat.new.me) }
{
    if take_turn(ring, seat, place) != 0 {
        return Err(AllocError);
    }
    let Some(mut part) = ring.table.shared.exchange(seat, place as usize, None) else {
        unreachable!()
    };
    let count = part.pins.as_slice().len();
    if count == 0 {
        part.pins = Pins::of(
            alloc,
            &[Pin {
                id,
                front: part.cut,
            }],
        )?;
    }
    let left = ring.table.shared.exchange(seat, place as usize, Some(part));
    drop(left);
    give_turn(ring, seat, place);
    Ok(count)
}

// Brings a shard on to position 1, where its turn is free.
fn bring_on(ring: &Ring<PartState>, seat: &mut Seat<PartState>, place: u64) -> bool
    requires at { IsAt ring.now.table.shared.table_id seat.old.table_id seat.old.me.0 }
    requires free { IsFree seat.old.me }
    requires shard { place < ring.now.shards }
    requires archiver { IsArchiver 1 seat.old.me.0 }
    ensures at { IsAt ring.now.table.shared.table_id seat.new.table_id seat.new.me.0 }
    ensures free { result ≡ true → IsFree seat.new.me }
    ensures archiver { result ≡ true → IsArchiver 1 seat.new.me.0 }
    ensures stood { result ≡ true → KnowsOf place seat.old.me.0 seat.new.me.0 }
{
    if take_turn(ring, seat, place) != 0 {
        return false;
    }
    let Some(mut part) = ring.table.shared.exchange(seat, place as usize, None) else {
        unreachable!()
    };
    part.front = 1;
    let left = ring.table.shared.exchange(seat, place as usize, Some(part));
    drop(left);
    give_turn(ring, seat, place);
    true
}

// Puts an edge at position 0 and takes it, where both can be done.
fn put_and_take(ring: &Ring<PartState>, seat: &mut Seat<PartState>) -> bool
    requires at { IsAt ring.now.table.shared.table_id seat.old.table_id seat.old.me.0 }
    requires free { IsFree seat.old.me }
    requires archiver { IsArchiver 0 seat.old.me.0 }
    requires may_claim { (seat.old.me.0.share.quota ≡ 1) × (ring.now.table.shared.key.layout.vertices ≡ 10) }
    ensures at { IsAt ring.now.table.shared.table_id seat.new.table_id seat.new.me.0 }
    ensures free { IsFree seat.new.me }
    ensures archiver { result ≡ true → IsArchiver 1 seat.new.me.0 }
{
    let edge = Edge {
        del: false,
        src: 0,
        dst: 1,
    };
    let at = claim(ring, seat, &[edge]);
    if at >= ring.slots {
        return false;
    }
    store(ring, seat, Entry { at, edge });
    let word = load_ordered(ring, seat, 0);
    matched(word, 0, ring.slots)
}

// Brings all three shards on to position 1, and the archived front after them.
fn archive_first(ring: &Ring<PartState>, seat: &mut Seat<PartState>) -> bool
    requires at { IsAt ring.now.table.shared.table_id seat.old.table_id seat.old.me.0 }
    requires free { IsFree seat.old.me }
    requires shards { ring.now.shards ≡ 3 }
    requires archiver { IsArchiver 1 seat.old.me.0 }
{
    if !bring_on(ring, seat, 0) {
        return false;
    }
    if !bring_on(ring, seat, 1) {
        return false;
    }
    if !bring_on(ring, seat, 2) {
        return false;
    }
    store_archived(ring, seat, 1);
    true
}

#[test]
fn a_turn_is_taken_once_and_each_part_has_its_own(rt: HostRuntime) -> Result<(), Fail> {
    let Opened { ring, mut seat } = opened(rt.alloc())?;
    assert!(rt; take_turn(&ring, &mut seat, 1) == 0 && take_turn(&ring, &mut seat, 1) == 1);
    assert!(rt; take_turn(&ring, &mut seat, 0) == 0 && take_turn(&ring, &mut seat, 3) == 0);
    assert!(rt; take_turn(&ring, &mut seat, 3) == 1 && take_turn(&ring, &mut seat, 2) == 0);
    Ok(())
}

#[test]
fn a_part_comes_back_as_it_was_given(rt: HostRuntime) -> Result<(), Fail> {
    let Opened { ring, mut seat } = opened(rt.alloc())?;
    assert!(rt; pin(rt.alloc(), &ring, &mut seat, 1, 7)? == 0);
    assert!(rt; pin(rt.alloc(), &ring, &mut seat, 1, 8)? == 1);
    assert!(rt; pin(rt.alloc(), &ring, &mut seat, 2, 7)? == 0);
    Ok(())
}

#[test]
fn the_archived_front_follows_all_shards(rt: HostRuntime) -> Result<(), Fail> {
    let Opened { ring, mut seat } = opened(rt.alloc())?;
    assert!(rt; put_and_take(&ring, &mut seat));
    assert!(rt; archive_first(&ring, &mut seat));
    assert!(rt; ring.table.shared.peek(ARCHIVED) == 1);
    Ok(())
}
