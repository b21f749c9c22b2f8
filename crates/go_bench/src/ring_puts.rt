// Threads put edges into a ring, in claims of so many.
ghost use Rattle.std.specs.Prelude.{◌≡◌, ◌+◌, ◌*◌, ◌≤◌, ◌<◌, ◌^◌, length, take, All, Contains};
ghost use Rattle.go_word.specs.Log.{IsWithin};
ghost use Rattle.go_word.specs.Word.{IsStorable};
ghost use Rattle.go_rule.specs.Steps.{IsAt};
ghost use Rattle.go_ring.specs.Claims.{entries_in};
ghost use Rattle.go_ring.specs.Samples.{Stays, MayPut};
ghost use Rattle.go_bench.specs.Shares.{MayShare};

use go_api::Stop;
use go_core::PartState;
use go_ring::{Claim, Fill, RingCalls};
use go_rule::{Ring, Seat};
use go_word::Edge;
use std::thread;
use std::thread::Threads;

/// How many edges there are, which each thread puts over and over.
pub const EDGES: usize = 65536;

// Fills a claim once its slots are free. Where they never are, it is given up, with the flag up.
fn fill(ring: &Ring<PartState>, seat: &mut Seat<PartState>, mut claim: Claim)
    requires at { IsAt ring.now.table.shared.table_id seat.old.table_id seat.old.me.0 }
    requires owed { All (Contains seat.old.me.0.core.pending) (entries_in claim) }
    requires storable { All IsStorable (take claim.len claim.edges) }
    ensures at { IsAt ring.now.table.shared.table_id seat.new.table_id seat.new.me.0 }
    ensures stays { Stays 0 seat.old.me.0 seat.new.me.0 }
{
    let mut left = u64::MAX;
    while left > 0 {
        claim = match ring.fill(seat, claim) {
            Fill::Done { position: _ } => return,
            Fill::Held { claim, released: _ } => claim,
        };
        thread::yield_now();
        left -= 1;
    }
    ring.raise(seat, Stop::Memory);
    ring.abandon(seat, claim);
}

// Puts edges by one claim.
fn put(ring: &Ring<PartState>, seat: &mut Seat<PartState>, edges: &[Edge])
    requires at { IsAt ring.now.table.shared.table_id seat.old.table_id seat.old.me.0 }
    requires some { 1 ≤ length edges.now }
    requires few { length edges.now ≤ 64 }
    requires storable { All IsStorable edges.now }
    requires within { All (IsWithin 65536) edges.now }
    requires vertices { ring.now.table.shared.key.layout.vertices ≡ 65536 }
    requires quota { length edges.now ≤ seat.old.me.0.share.quota }
    ensures at { IsAt ring.now.table.shared.table_id seat.new.table_id seat.new.me.0 }
    ensures stays { Stays (length edges.now) seat.old.me.0 seat.new.me.0 }
{
    let claim = ring.claim(seat, edges);
    fill(ring, seat, claim)
}

/// Puts so many edges, in claims of so many.
pub fn put_all(
    ring: &Ring<PartState>,
    mut seat: Seat<PartState>,
    edges: &[Edge],
    count: u32,
    claim: u32,
)
    requires may { MayPut count ring.now.table.shared.table_id seat.table_id seat.me.0 }
    requires edges { (length edges.now ≡ 65536) × All IsStorable edges.now × All (IsWithin 65536) edges.now }
    requires claim { (1 ≤ claim) × (claim ≤ 64) }
    requires vertices { ring.now.table.shared.key.layout.vertices ≡ 65536 }
{
    let mut left = count;
    let mut at = 0;
    while left > 0 {
        let len = left.min(claim);
        if at + len as usize > EDGES {
            at = 0;
        }
        let end = at + len as usize;
        put(ring, &mut seat, &edges[at..end]);
        at = end;
        left -= len;
    }
}

/// Two threads put so many edges each.
pub fn put_two<R: Threads + Sync>(
    rt: &R,
    ring: &Ring<PartState>,
    mut seat: Seat<PartState>,
    edges: &[Edge],
    each: u32,
    claim: u32,
)
    requires may { MayShare (2 * each) 2 ring.now.table.shared.table_id seat.table_id seat.me.0 }
    requires edges { (length edges.now ≡ 65536) × All IsStorable edges.now × All (IsWithin 65536) edges.now }
    requires claim { (1 ≤ claim) × (claim ≤ 64) }
    requires vertices { ring.now.table.shared.key.layout.vertices ≡ 65536 }
    requires small { 2 * each < 2 ^ 32 }
{
    let other = ring.split(&mut seat, u64::from(each) * 1, 1);
    thread::join(
        rt,
        move || { put_all(ring, seat, edges, each, claim) },
        move || { put_all(ring, other, edges, each, claim) },
    );
}

/// Four threads put so many edges each.
pub fn put_four<R: Threads + Sync>(
    rt: &R,
    ring: &Ring<PartState>,
    mut seat: Seat<PartState>,
    edges: &[Edge],
    each: u32,
    claim: u32,
)
    requires may { MayShare (4 * each) 4 ring.now.table.shared.table_id seat.table_id seat.me.0 }
    requires edges { (length edges.now ≡ 65536) × All IsStorable edges.now × All (IsWithin 65536) edges.now }
    requires claim { (1 ≤ claim) × (claim ≤ 64) }
    requires vertices { ring.now.table.shared.key.layout.vertices ≡ 65536 }
    requires small { 4 * each < 2 ^ 32 }
{
    let other = ring.split(&mut seat, u64::from(each) * 2, 2);
    thread::join(
        rt,
        move ||
            requires may { MayShare (2 * each) 2 ring.now.table.shared.table_id seat.table_id seat.me.0 }
            requires edges { (length edges.now ≡ 65536) × All IsStorable edges.now × All (IsWithin 65536) edges.now }
            requires claim { (1 ≤ claim) × (claim ≤ 64) }
            requires vertices { ring.now.table.shared.key.layout.vertices ≡ 65536 }
            requires small { 2 * each < 2 ^ 32 }
        { put_two(rt, ring, seat, edges, each, claim) },
        move ||
            requires may { MayShare (2 * each) 2 ring.now.table.shared.table_id other.table_id other.me.0 }
            requires edges { (length edges.now ≡ 65536) × All IsStorable edges.now × All (IsWithin 65536) edges.now }
            requires claim { (1 ≤ claim) × (claim ≤ 64) }
            requires vertices { ring.now.table.shared.key.layout.vertices ≡ 65536 }
            requires small { 2 * each < 2 ^ 32 }
        { put_two(rt, ring, other, edges, each, claim) },
    );
}

/// Eight threads put so many edges each.
pub fn put_eight<R: Threads + Sync>(
    rt: &R,
    ring: &Ring<PartState>,
    mut seat: Seat<PartState>,
    edges: &[Edge],
    each: u32,
    claim: u32,
)
    requires may { MayShare (8 * each) 8 ring.now.table.shared.table_id seat.table_id seat.me.0 }
    requires edges { (length edges.now ≡ 65536) × All IsStorable edges.now × All (IsWithin 65536) edges.now }
    requires claim { (1 ≤ claim) × (claim ≤ 64) }
    requires vertices { ring.now.table.shared.key.layout.vertices ≡ 65536 }
    requires small { 8 * each < 2 ^ 32 }
{
    let other = ring.split(&mut seat, u64::from(each) * 4, 4);
    thread::join(
        rt,
        move ||
            requires may { MayShare (4 * each) 4 ring.now.table.shared.table_id seat.table_id seat.me.0 }
            requires edges { (length edges.now ≡ 65536) × All IsStorable edges.now × All (IsWithin 65536) edges.now }
            requires claim { (1 ≤ claim) × (claim ≤ 64) }
            requires vertices { ring.now.table.shared.key.layout.vertices ≡ 65536 }
            requires small { 4 * each < 2 ^ 32 }
        { put_four(rt, ring, seat, edges, each, claim) },
        move ||
            requires may { MayShare (4 * each) 4 ring.now.table.shared.table_id other.table_id other.me.0 }
            requires edges { (length edges.now ≡ 65536) × All IsStorable edges.now × All (IsWithin 65536) edges.now }
            requires claim { (1 ≤ claim) × (claim ≤ 64) }
            requires vertices { ring.now.table.shared.key.layout.vertices ≡ 65536 }
            requires small { 4 * each < 2 ^ 32 }
        { put_four(rt, ring, other, edges, each, claim) },
    );
}
