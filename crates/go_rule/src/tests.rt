// A ring over parts that stand for what they reach, with one shard: that threads may share it, and its first steps.
ghost use Rattle.std.specs.Prelude.{◌≡◌, ◌+◌, ◌≤◌, ◌<◌, ◌^◌, IfOk, IfSome, [], ◌∷◌, Some, false};
ghost use Rattle.go_word.specs.Word.{IsStorable};
ghost use Rattle.go_rule.specs.Rule.{IsBelow};
ghost use Rattle.go_rule.specs.Steps.{IsAt};
ghost use Rattle.go_rule.specs.Samples.{IsIdle};

use crate::{
    Key, Layout, Opened, Ring, Seat, claim, close, join, load_archived, load_durable, load_head,
    split, store,
};
use go_core::{Entry, PartState, Pins, ring_words};
use go_word::{Edge, encode};
use std::alloc::{AllocError, Global};
use std::snapshot::Snapshot;
use std::test::Fail;
use std::thread;
use std::thread::Threads;

// A part at the beginning.
fn part(alloc: Global) -> PartState
    ensures { result ≡ record { front = 0; cut = 0; pins = [] } }
{
    PartState {
        front: 0,
        cut: 0,
        pins: Pins::none(alloc),
    }
}

// A ring of eight slots with one shard and the file, from position 0 on.
fn opened(alloc: Global, quota: u64) -> Result<Opened<PartState>, AllocError>
    requires { quota < 2 ^ 31 }
    ensures at { IfOk result (λ o. IsAt o.ring.table.shared.table_id o.seat.table_id o.seat.me.0) }
    ensures quota { IfOk result (λ o. (o.seat.me.0.share.quota ≡ quota) × (o.ring.table.shared.key.layout.vertices ≡ 10)) }
    ensures idle { IfOk result (λ o. IsIdle (2 ^ 32) o.seat.me) }
{
    let file = part(alloc);
    let key = Key {
        layout: Layout {
            vertices: 10,
            ring: 8,
            shards: 1,
        },
        first: 0,
        quota,
        opened: Snapshot::of(&Vec::new(alloc)),
        file: Snapshot::of(&file),
    };
    let words = ring_words(alloc, 6, 8, 0)?;
    let mut slots = Vec::new(alloc);
    slots.push(Some(part(alloc)))?;
    slots.push(Some(file))?;
    let spare = Vec::with_capacity(alloc, 2)?;
    match Ring::open(alloc, &key, words.as_slice(), slots, spare) {
        Ok(opened) => Ok(opened),
        Err(refused) => {
            drop(refused);
            Err(AllocError)
        }
    }
}

// What threads may share.
fn is_shared<S: Sync>(_shared: &S) -> bool {
    true
}

// What may go to another thread.
fn is_sent<S: Send>(_sent: &S) -> bool {
    true
}

#[test]
fn a_ring_is_shared_and_a_seat_is_sent(rt: HostRuntime) -> Result<(), Fail> {
    let Opened { ring, seat } = opened(rt.alloc(), 2)?;
    assert!(rt; is_shared(&ring) && is_sent(&seat));
    Ok(())
}

#[test]
fn a_new_ring_is_empty_and_a_claim_lengthens_it(rt: HostRuntime) -> Result<(), Fail> {
    let Opened { ring, mut seat } = opened(rt.alloc(), 2)?;
    assert!(rt; load_head(&ring, &mut seat) == 0);
    assert!(rt; load_archived(&ring, &mut seat) == 0 && load_durable(&ring, &mut seat) == 0);
    let edge = Edge {
        del: false,
        src: 0,
        dst: 1,
    };
    let at = claim(&ring, &mut seat, &[edge]);
    assert!(rt; at == 0 && load_head(&ring, &mut seat) == 1);
    Ok(())
}

// An edge from vertex 0.
fn edge_to(dst: u32) -> Edge
    ensures { result ≡ record { del = false; src = 0; dst = dst } }
{
    Edge {
        del: false,
        src: 0,
        dst,
    }
}

// Claims a position and stores its word, where that is within the slots: then the seat owes nothing.
fn put(ring: &Ring<PartState>, mut seat: Seat<PartState>, dst: u32) -> Option<Seat<PartState>>
    requires at { IsAt ring.now.table.shared.table_id seat.table_id seat.me.0 }
    requires idle { IsIdle (2 ^ 31) seat.me }
    requires quota { 1 ≤ seat.me.0.share.quota }
    requires below { (dst < 10) × (ring.now.table.shared.key.layout.vertices ≡ 10) }
    ensures at { IfSome result (λ s. IsAt ring.now.table.shared.table_id s.table_id s.me.0) }
    ensures idle { IfSome result (λ s. IsIdle (2 ^ 31) s.me) }
{
    let edge = edge_to(dst);
    let at = claim(ring, &mut seat, &[edge]);
    if at >= ring.slots {
        return None;
    }
    store(ring, &mut seat, Entry { at, edge });
    Some(seat)
}

// Two threads put an edge each, and their seats are joined.
fn put_both<R: Threads + Sync>(
    rt: &R,
    ring: &Ring<PartState>,
    mut seat: Seat<PartState>,
) -> Option<Seat<PartState>>
    requires at { IsAt ring.now.table.shared.table_id seat.table_id seat.me.0 }
    requires idle { IsIdle (2 ^ 32) seat.me }
    requires quota { 2 ≤ seat.me.0.share.quota }
    requires ten { ring.now.table.shared.key.layout.vertices ≡ 10 }
    ensures at { IfSome result (λ s. IsAt ring.now.table.shared.table_id s.table_id s.me.0) }
    ensures idle { IfSome result (λ s. IsIdle (2 ^ 32) s.me) }
{
    let other = split(ring, &mut seat, 1, 1 << 31);
    let (one, two) = thread::join(
        rt,
        move || -> Option<Seat<PartState>>
            requires at { IsAt ring.now.table.shared.table_id seat.table_id seat.me.0 }
            requires idle { IsIdle (2 ^ 31) seat.me }
            requires quota { 1 ≤ seat.me.0.share.quota }
            requires ten { ring.now.table.shared.key.layout.vertices ≡ 10 }
            ensures at { IfSome result (λ s. IsAt ring.entry.now.table.shared.table_id s.table_id s.me.0) }
            ensures idle { IfSome result (λ s. IsIdle (2 ^ 31) s.me) }
        { put(ring, seat, 1) },
        move || -> Option<Seat<PartState>>
            requires at { IsAt ring.now.table.shared.table_id other.table_id other.me.0 }
            requires idle { IsIdle (2 ^ 31) other.me }
            requires quota { 1 ≤ other.me.0.share.quota }
            requires ten { ring.now.table.shared.key.layout.vertices ≡ 10 }
            ensures at { IfSome result (λ s. IsAt ring.entry.now.table.shared.table_id s.table_id s.me.0) }
            ensures idle { IfSome result (λ s. IsIdle (2 ^ 31) s.me) }
        { put(ring, other, 2) },
    );
    let (Some(mut one), Some(two)) = (one, two) else {
        return None;
    };
    join(ring, &mut one, two);
    Some(one)
}

#[test]
fn two_threads_put_an_edge_each_and_the_ring_is_closed(rt: HostRuntime) -> Result<(), Fail> {
    let Opened { ring, seat } = opened(rt.alloc(), 2)?;
    let seat = put_both(&rt, &ring, seat).ok_or("a claim past the slots")?;
    let words = (
        ring.table.shared.peek(ring.place(0)),
        ring.table.shared.peek(ring.place(1)),
    );
    let (one, two) = (edge_to(1), edge_to(2));
    let in_turn = words == (encode(one, 0, 8), encode(two, 1, 8));
    let turned = words == (encode(two, 0, 8), encode(one, 1, 8));
    assert!(rt; in_turn || turned);
    let closed = close(ring, seat);
    assert!(rt; closed.head == 2 && closed.archived == 0 && closed.durable == 0);
    assert!(rt; closed.parts.len() == 2);
    Ok(())
}
