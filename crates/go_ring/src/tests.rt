// Small rings over parts that stand for what they reach: with one seat, and with a thread that copies beside one that puts.
ghost use Rattle.std.specs.Prelude.{◌≡◌, ◌+◌, ◌≤◌, ◌<◌, ◌^◌, IfOk, [], ◌∷◌, false, length, take, All, Contains};
ghost use Rattle.go_word.specs.Word.{IsStorable};
ghost use Rattle.go_rule.specs.Rule.{IsBelow};
ghost use Rattle.go_rule.specs.Steps.{IsAt};
ghost use Rattle.go_ring.specs.Claims.{entries_in};
ghost use Rattle.go_ring.specs.Samples.{Stays, IsFresh};

use crate::claim::CLAIM_MOST;
use crate::{Claim, Copied, CopyStop, Fill, RingCalls, Room, open};
use go_api::Stop;
use go_core::{PartState, Pins};
use go_rule::{Layout, Opened, Ring, Seat};
use go_word::{Edge, encode};
use std::alloc::{AllocError, Global};
use std::snapshot::Snapshot;
use std::test::Fail;
use std::thread;
use std::thread::Threads;

// A part at the beginning.
fn part(alloc: Global) -> PartState
    ensures { result ≡ record { front = 0; cut = 0; pins = [] } }
{
    PartState {
        front: 0,
        cut: 0,
        pins: Pins::none(alloc),
    }
}

// A ring of so many slots with one shard and the file, from position 0 on.
pub(crate) fn opened(alloc: Global, slots: u64, quota: u64) -> Result<Opened<PartState>, AllocError>
    requires slots { (0 < slots) × (slots ≤ 128) }
    requires quota { quota < 2 ^ 31 }
    ensures at { IfOk result (λ o. IsAt o.ring.table.shared.table_id o.seat.table_id o.seat.me.0) }
    ensures ring { IfOk result (λ o. o.ring.table.shared.key.layout.ring ≡ slots) }
    ensures sizes { IfOk result (λ o. (o.ring.table.shared.key.layout.shards ≡ 1) × (o.ring.table.shared.key.layout.vertices ≡ 10000)) }
    ensures quota { IfOk result (λ o. (o.seat.me.0.share.quota ≡ quota) × (o.seat.me.0.share.lot ≡ 2 ^ 32) × (o.seat.me.0.stake.notes ≡ [])) }
    ensures fresh { IfOk result (λ o. IsFresh o.seat.me) }
{
    let mut parts = Vec::new(alloc);
    parts.push(part(alloc))?;
    parts.push(part(alloc))?;
    let layout = Layout {
        vertices: 10000,
        ring: slots,
        shards: 1,
    };
    match open(
        alloc,
        layout,
        0,
        quota,
        Snapshot::of(&Vec::new(alloc)),
        parts,
    ) {
        Ok(opened) => Ok(opened),
        Err(parts) => {
            drop(parts);
            Err(AllocError)
        }
    }
}

// An edge from vertex 0.
pub(crate) fn edge_to(dst: u32) -> Edge
    ensures { result ≡ record { del = false; src = 0; dst = dst } }
{
    Edge {
        del: false,
        src: 0,
        dst,
    }
}

// As many of them as a claim may have.
fn edges_to(dst: u32) -> [Edge; CLAIM_MOST]
    requires { dst < 10000 }
    ensures long { length result ≡ 64 }
    ensures storable { All IsStorable result }
    ensures below { All (IsBelow 10000) result }
{
    [edge_to(dst); CLAIM_MOST]
}

// Fills a claim once its slots are free. Where they aren't within so many tries it is given up, with the flag up, and what was released
// at the last one is told.
pub(crate) fn fill_in_time(
    ring: &Ring<PartState>,
    seat: &mut Seat<PartState>,
    mut claim: Claim,
    tries: u64,
) -> Result<u64, u64>
    requires at { IsAt ring.now.table.shared.table_id seat.old.table_id seat.old.me.0 }
    requires owed { All (Contains seat.old.me.0.core.pending) (entries_in claim) }
    requires storable { All IsStorable (take claim.len claim.edges) }
    ensures at { IsAt ring.now.table.shared.table_id seat.new.table_id seat.new.me.0 }
    ensures stays { Stays 0 seat.old.me.0 seat.new.me.0 }
{
    let mut left = tries;
    let mut last = 0;
    while left > 0 {
        claim = match ring.fill(seat, claim) {
            Fill::Done { position } => return Ok(position),
            Fill::Held { claim, released } => {
                last = released;
                claim
            }
        };
        thread::yield_now();
        left -= 1;
    }
    ring.raise(seat, Stop::Memory);
    ring.abandon(seat, claim);
    Err(last)
}

// Puts edges by one claim, which is filled within so many tries or given up.
pub(crate) fn put(
    ring: &Ring<PartState>,
    seat: &mut Seat<PartState>,
    edges: &[Edge],
    tries: u64,
) -> Result<u64, u64>
    requires at { IsAt ring.now.table.shared.table_id seat.old.table_id seat.old.me.0 }
    requires some { 1 ≤ length edges.now }
    requires few { length edges.now ≤ 64 }
    requires storable { All IsStorable edges.now }
    requires below { All (IsBelow ring.now.table.shared.key.layout.vertices) edges.now }
    requires quota { length edges.now ≤ seat.old.me.0.share.quota }
    ensures at { IsAt ring.now.table.shared.table_id seat.new.table_id seat.new.me.0 }
    ensures stays { Stays (length edges.now) seat.old.me.0 seat.new.me.0 }
{
    let claim = ring.claim(seat, edges);
    fill_in_time(ring, seat, claim, tries)
}

// Puts one edge.
pub(crate) fn put_one(
    ring: &Ring<PartState>,
    seat: &mut Seat<PartState>,
    dst: u32,
) -> Result<u64, u64>
    requires at { IsAt ring.now.table.shared.table_id seat.old.table_id seat.old.me.0 }
    requires quota { 1 ≤ seat.old.me.0.share.quota }
    requires below { (dst < 10000) × (ring.now.table.shared.key.layout.vertices ≡ 10000) }
    ensures at { IsAt ring.now.table.shared.table_id seat.new.table_id seat.new.me.0 }
    ensures stays { Stays 1 seat.old.me.0 seat.new.me.0 }
{
    put(ring, seat, &[edge_to(dst)], 1)
}

#[test]
fn two_claims_of_64_fill_a_ring_of_128(rt: HostRuntime) -> Result<(), Fail> {
    let Opened { ring, mut seat } = opened(rt.alloc(), 128, 129)?;
    let edges = edges_to(1);
    assert!(rt;
        put(&ring, &mut seat, &edges, 1) == Ok(0) && put(&ring, &mut seat, &edges, 1) == Ok(64)
    );
    let full = Room::Full {
        head: 128,
        released: 0,
    };
    assert!(rt; ring.room(&mut seat) == full);
    assert!(rt; put_one(&ring, &mut seat, 2) == Err(0));
    assert!(rt; ring.flag(&mut seat) == Some(Stop::Memory));
    let closed = ring.close(seat);
    assert!(rt; closed.head == 129 && closed.archived == 0 && closed.parts.len() == 2);
    Ok(())
}

// Claims a position, copies, and fills the claim then: what the copy tells, and where the edge stands.
fn copy_before_fill(
    ring: &Ring<PartState>,
    seat: &mut Seat<PartState>,
    words: &mut [u64; 2],
    dst: u32,
) -> (Copied, Result<u64, u64>)
    requires at { IsAt ring.now.table.shared.table_id seat.old.table_id seat.old.me.0 }
    requires quota { 1 ≤ seat.old.me.0.share.quota }
    requires below { (dst < 10000) × (ring.now.table.shared.key.layout.vertices ≡ 10000) }
    requires ring { ring.now.table.shared.key.layout.ring ≡ 2 }
    ensures at { IsAt ring.now.table.shared.table_id seat.new.table_id seat.new.me.0 }
{
    let claim = ring.claim(seat, &[edge_to(dst)]);
    let copied = ring.copy(seat, words);
    (copied, fill_in_time(ring, seat, claim, 1))
}

#[test]
fn a_copy_ends_at_the_length_at_a_gap_and_at_the_window(rt: HostRuntime) -> Result<(), Fail> {
    let Opened { ring, mut seat } = opened(rt.alloc(), 2, 2)?;
    let mut words = [0; 2];
    let empty = Copied {
        archived: 0,
        durable: 0,
        end: 0,
        stop: CopyStop::Head { head: 0 },
    };
    assert!(rt; ring.copy(&mut seat, &mut words) == empty);
    assert!(rt; put_one(&ring, &mut seat, 1) == Ok(0));
    let one = Copied {
        end: 1,
        stop: CopyStop::Head { head: 1 },
        ..empty
    };
    assert!(rt; ring.copy(&mut seat, &mut words) == one);
    let gap = Copied {
        end: 1,
        stop: CopyStop::Unwritten { position: 1 },
        ..empty
    };
    assert!(rt; copy_before_fill(&ring, &mut seat, &mut words, 2) == (gap, Ok(1)));
    assert!(rt; words[0] == encode(edge_to(1), 0, 2));
    let two = Copied {
        end: 2,
        stop: CopyStop::Window { from: 0 },
        ..empty
    };
    assert!(rt; ring.copy(&mut seat, &mut words) == two);
    assert!(rt; words == [encode(edge_to(1), 0, 2), encode(edge_to(2), 1, 2)]);
    Ok(())
}

#[test]
fn a_worker_is_joined_and_the_ring_closed(rt: HostRuntime) -> Result<(), Fail> {
    let Opened { ring, mut seat } = opened(rt.alloc(), 2, 2)?;
    let mut flusher = ring.split(&mut seat, 1, 1);
    assert!(rt; ring.durable(&mut flusher) == 0);
    ring.join(&mut seat, flusher);
    let closed = ring.close(seat);
    assert!(rt; closed.head == 0 && closed.durable == 0 && closed.parts.len() == 2);
    Ok(())
}

// One thread puts two edges, and another copies meanwhile; the copy is given.
fn put_and_copy<R: Threads + Sync>(
    rt: &R,
    ring: &Ring<PartState>,
    seat: &mut Seat<PartState>,
    words: &mut [u64; 2],
) -> Copied
    requires at { IsAt ring.now.table.shared.table_id seat.old.table_id seat.old.me.0 }
    requires quota { 2 ≤ seat.old.me.0.share.quota }
    requires lot { 2 ≤ seat.old.me.0.share.lot }
    requires sizes { (ring.now.table.shared.key.layout.ring ≡ 2) × (ring.now.table.shared.key.layout.vertices ≡ 10000) }
{
    let mut other = ring.split(seat, 0, 1);
    let ((), copied) = thread::join(
        rt,
        move || {
            let _ = put_one(ring, seat, 1);
            let _ = put_one(ring, seat, 2);
        },
        move || -> Copied { ring.copy(&mut other, words) },
    );
    copied
}

#[test]
fn a_copy_beside_puts_has_the_words_up_to_its_end(rt: HostRuntime) -> Result<(), Fail> {
    let Opened { ring, mut seat } = opened(rt.alloc(), 2, 2)?;
    let mut words = [0; 2];
    let copied = put_and_copy(&rt, &ring, &mut seat, &mut words);
    assert!(rt; copied.archived == 0 && copied.durable == 0 && copied.end <= 2);
    assert!(rt; copied.end < 1 || words[0] == encode(edge_to(1), 0, 2));
    assert!(rt; copied.end < 2 || words[1] == encode(edge_to(2), 1, 2));
    Ok(())
}
