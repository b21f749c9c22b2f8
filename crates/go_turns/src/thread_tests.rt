// Three threads take three shards by turns, at random: each counts there, and one brings them on.
ghost use Rattle.std.specs.Prelude.{◌≡◌, ◌^◌, ◌<◌, ◌≤◌, IfOk, true, []};
ghost use Rattle.go_rule.specs.Steps.{IsAt};
ghost use Rattle.go_rule.specs.Samples.{IsFree, IsArchiver};
ghost use Rattle.go_turns.specs.Samples.{MayBring, Stays};

use crate::tests::{part, put_and_take};
use crate::{give, take};
use go_core::{Part, PartState, ring_words};
use go_rule::{Closed, Key, Layout, Opened, Ring, Seat, close, join, split};
use std::alloc::{AllocError, Global};
use std::snapshot::Snapshot;
use std::sync::Wait;
use std::test::Fail;
use std::thread;
use std::thread::Threads;

// How many edges there are, up to which one of the threads brings the shards on.
const EDGES: u64 = 300;

// How often each thread takes a shard.
const TURNS: u64 = 900;

// A part that counts how often it was in a hand.
#[derive(Drop)]
struct Counted {
    state: PartState,
    count: u64,
}

impl Part for Counted {
    ghost use Rattle.std.specs.Prelude.{◌≤◌, ⊤};
    ghost use Rattle.go_core.specs.Parts.{Reaches, reaches_on, no_mark};

    ghost state_of = { λ p. p.state };

    ghost stands_for = { λ p first log. Reaches p.state log };

    ghost fits = { λ p place shards vertices. place ≤ shards };

    ghost keeps = { λ p front. (p.state.cut ≤ front) × (front ≤ p.state.front) };

    ghost is_spent = { λ p. ⊥ };

    ghost mark_of = { λ p. no_mark };

    ghost recovers = { λ p log vertices first mark. ⊤ };

    fn front(&self) -> u64 {
        self.state.front
    }

    ghost stands_on = { λ p first log more reaches. reaches_on p.state log more reaches };

    ghost recovers_on = { λ p log more vertices first mark recovers. recovers };
}

// What a thread finds as it takes a shard.
#[derive(Clone, Copy)]
struct Found {
    front: u64,
    count: u64,
}

// A part at the beginning, which was in no hand.
fn uncounted(alloc: Global) -> Counted
    ensures { result.state ≡ record { front = 0; cut = 0; pins = [] } }
{
    Counted {
        state: part(alloc),
        count: 0,
    }
}

// A ring of 512 slots with three shards and the file, from position 0 on.
fn opened(alloc: Global) -> Result<Opened<Counted>, AllocError>
    ensures at { IfOk result (λ o. IsAt o.ring.table.shared.table_id o.seat.table_id o.seat.me.0) }
    ensures shards { IfOk result (λ o. o.ring.shards ≡ 3) }
    ensures free { IfOk result (λ o. IsFree o.seat.me) }
    ensures archiver { IfOk result (λ o. IsArchiver 0 o.seat.me.0) }
    ensures shares { IfOk result (λ o. (o.seat.me.0.share.quota ≡ 300) × (o.seat.me.0.share.lot ≡ 2 ^ 32)) }
    ensures vertices { IfOk result (λ o. o.ring.table.shared.key.layout.vertices ≡ 10) }
{
    let file = uncounted(alloc);
    let key = Key {
        layout: Layout {
            vertices: 10,
            ring: 512,
            shards: 3,
        },
        first: 0,
        quota: EDGES,
        opened: Snapshot::of(&Vec::new(alloc)),
        file: Snapshot::of(&file),
    };
    let words = ring_words(alloc, 8, 512, 0)?;
    let parts = [
        Some(uncounted(alloc)),
        Some(uncounted(alloc)),
        Some(uncounted(alloc)),
        Some(file),
    ];
    let slots = Vec::from_array(alloc, parts)?;
    let spare = Vec::with_capacity(alloc, 4)?;
    match Ring::open(alloc, &key, words.as_slice(), slots, spare) {
        Ok(opened) => Ok(opened),
        Err(refused) => {
            drop(refused);
            Err(AllocError)
        }
    }
}

// Puts all edges, and takes them.
fn put_and_take_all(ring: &Ring<Counted>, seat: &mut Seat<Counted>) -> bool
    requires at { IsAt ring.now.table.shared.table_id seat.old.table_id seat.old.me.0 }
    requires free { IsFree seat.old.me }
    requires archiver { IsArchiver 0 seat.old.me.0 }
    requires shares { (seat.old.me.0.share.quota ≡ 300) × (seat.old.me.0.share.lot ≡ 2 ^ 32) }
    requires vertices { ring.now.table.shared.key.layout.vertices ≡ 10 }
    ensures at { IsAt ring.now.table.shared.table_id seat.new.table_id seat.new.me.0 }
    ensures free { IsFree seat.new.me }
    ensures may { result ≡ true → MayBring 300 seat.new.me.0 }
    ensures lot { seat.new.me.0.share.lot ≡ 2 ^ 32 }
{
    let mut at = 0;
    while at < EDGES {
        if !put_and_take(ring, seat, at) {
            return false;
        }
        at += 1;
    }
    true
}

// Takes a shard as soon as it can, counts that, brings the shard on to a position, and gives it back: what was found.
fn count_in<R: Wait>(
    rt: &R,
    ring: &Ring<Counted>,
    seat: &mut Seat<Counted>,
    place: u32,
    to: u64,
) -> Found
    requires at { IsAt ring.now.table.shared.table_id seat.old.table_id seat.old.me.0 }
    requires free { IsFree seat.old.me }
    requires may { MayBring to seat.old.me.0 }
    requires shard { place < ring.now.shards }
    ensures at { IsAt ring.now.table.shared.table_id seat.new.table_id seat.new.me.0 }
    ensures free { IsFree seat.new.me }
    ensures stays { Stays seat.old.me.0 seat.new.me.0 }
{
    let mut hold = take(rt, ring, seat, place);
    let part = hold.part_mut();
    let found = Found {
        front: part.state.front,
        count: part.count,
    };
    part.state.front = found.front.max(to);
    part.count = found.count.wrapping_add(1);
    give(ring, seat, hold);
    found
}

// Whether neither the front nor the count fell.
fn rises(before: Found, now: Found) -> bool {
    before.front <= now.front && before.count <= now.count
}

// What a thread has to tell of its turns.
#[derive(Clone, Copy)]
struct Tally {
    // whether no front and no count fell
    rises: bool,
    // how often it had each shard
    turns: [u64; 3],
    // how far it brought each on
    brought: [u64; 3],
}

// The next of a row of numbers that look random.
fn next(seed: u64) -> u64 {
    seed.wrapping_mul(6364136223846793005)
        .wrapping_add(1442695040888963407)
}

// Takes one shard after another, drawn at random, counts in it, and brings it on a position further each time, as far as its reach.
fn count_at_random<R: Wait>(
    rt: &R,
    ring: &Ring<Counted>,
    mut seat: Seat<Counted>,
    reach: u64,
    seed: u64,
) -> (Tally, Seat<Counted>)
    requires at { IsAt ring.now.table.shared.table_id seat.table_id seat.me.0 }
    requires free { IsFree seat.me }
    requires may { MayBring reach seat.me.0 }
    requires shards { ring.now.shards ≡ 3 }
    ensures at { IsAt ring.now.table.shared.table_id result.1.table_id result.1.me.0 }
    ensures free { IsFree result.1.me }
    ensures stays { Stays seat.me.0 result.1.me.0 }
{
    let mut tally = Tally {
        rises: true,
        turns: [0; 3],
        brought: [0; 3],
    };
    let mut last = [Found { front: 0, count: 0 }; 3];
    let mut number = seed;
    let mut turn = 0;
    while turn < TURNS {
        turn += 1;
        number = next(number);
        let place = ((number >> 33) % 3) as usize;
        let to = reach.min(turn);
        let found = count_in(rt, ring, &mut seat, place as u32, to);
        tally.rises = tally.rises && rises(last[place], found);
        tally.turns[place] = tally.turns[place].saturating_add(1);
        tally.brought[place] = to;
        last[place] = found;
    }
    (tally, seat)
}

// Two threads count.
fn count_by_two<R: Threads + Wait + Sync>(
    rt: &R,
    ring: &Ring<Counted>,
    one: Seat<Counted>,
    two: Seat<Counted>,
) -> ([Tally; 2], Seat<Counted>, Seat<Counted>)
    requires one_at { IsAt ring.now.table.shared.table_id one.table_id one.me.0 }
    requires one_free { IsFree one.me }
    requires two_at { IsAt ring.now.table.shared.table_id two.table_id two.me.0 }
    requires two_free { IsFree two.me }
    requires shards { ring.now.table.shared.key.layout.shards ≡ 3 }
    ensures one_at { IsAt ring.now.table.shared.table_id result.1.table_id result.1.me.0 }
    ensures one_free { IsFree result.1.me }
    ensures one_stays { Stays one.me.0 result.1.me.0 }
    ensures two_at { IsAt ring.now.table.shared.table_id result.2.table_id result.2.me.0 }
    ensures two_free { IsFree result.2.me }
    ensures two_stays { Stays two.me.0 result.2.me.0 }
{
    let ((by_one, one), (by_two, two)) = thread::join(
        rt,
        move || -> (Tally, Seat<Counted>) { count_at_random(rt, ring, one, 0, 1) },
        move || -> (Tally, Seat<Counted>) { count_at_random(rt, ring, two, 0, 2) },
    );
    ([by_one, by_two], one, two)
}

// Three threads count, by two seats split off the first one, which brings the shards on; then these are joined and the ring is closed.
fn count_by_three<R: Threads + Wait + Sync>(
    rt: &R,
    ring: Ring<Counted>,
    mut archiver: Seat<Counted>,
) -> ([Tally; 3], Closed<Counted>)
    requires at { IsAt ring.table.shared.table_id archiver.table_id archiver.me.0 }
    requires free { IsFree archiver.me }
    requires may { MayBring 300 archiver.me.0 }
    requires lot { archiver.me.0.share.lot ≡ 2 ^ 32 }
    requires shards { ring.shards ≡ 3 }
{
    let one = split(&ring, &mut archiver, 0, 1);
    let two = split(&ring, &mut archiver, 0, 1);
    let shared = &ring;
    let ((first, mut archiver), (others, one, two)) = thread::join(
        rt,
        move || -> (Tally, Seat<Counted>)
            requires at { IsAt shared.now.table.shared.table_id archiver.table_id archiver.me.0 }
            requires free { IsFree archiver.me }
            requires may { MayBring 300 archiver.me.0 }
            requires shards { shared.now.table.shared.key.layout.shards ≡ 3 }
        { count_at_random(rt, shared, archiver, EDGES, 3) },
        move || -> ([Tally; 2], Seat<Counted>, Seat<Counted>)
            requires one_at { IsAt shared.now.table.shared.table_id one.table_id one.me.0 }
            requires one_free { IsFree one.me }
            requires two_at { IsAt shared.now.table.shared.table_id two.table_id two.me.0 }
            requires two_free { IsFree two.me }
            requires shards { shared.now.table.shared.key.layout.shards ≡ 3 }
        { count_by_two(rt, shared, one, two) },
    );
    join(&ring, &mut archiver, one);
    join(&ring, &mut archiver, two);
    let closed = close(ring, archiver);
    ([first, others[0], others[1]], closed)
}

// Whether a shard was brought on as far as the first thread did, by which it went on to the end, and counted as often as all three had it, which
// each did.
fn is_counted(shard: &Counted, tallies: &[Tally; 3], place: usize) -> bool
    requires { place < 3 }
{
    let mut turns = 0u64;
    for tally in tallies {
        if !tally.rises || tally.turns[place] == 0 {
            return false;
        }
        turns = turns.saturating_add(tally.turns[place]);
    }
    let brought = tallies[0].brought[place];
    brought == EDGES && shard.state.front == brought && shard.count == turns
}

#[test]
fn three_threads_count_in_three_shards(rt: HostRuntime) -> Result<(), Fail> {
    let Opened { ring, mut seat } = opened(rt.alloc())?;
    assert!(rt; put_and_take_all(&ring, &mut seat));
    let (tallies, closed) = count_by_three(&rt, ring, seat);
    assert!(rt; closed.parts.len() == 4 && closed.parts[3].count == 0);
    for place in 0..3 {
        assert!(rt; is_counted(&closed.parts[place], &tallies, place));
    }
    Ok(())
}
