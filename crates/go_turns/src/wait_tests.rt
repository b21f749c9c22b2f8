// A take waits: it comes back once another thread gave the part back, with what that left in it.
ghost use Rattle.std.specs.Prelude.{◌≡◌};
ghost use Rattle.go_rule.specs.Steps.{IsAt};
ghost use Rattle.go_turns.specs.Samples.{MayBring};

use crate::tests::{opened, put_and_take, take_on};
use crate::{give, take};
use go_core::PartState;
use go_rule::{Opened, Ring, Seat, split};
use std::sync::Wait;
use std::sync::atomic::{AtomicU64, Ordering};
use std::test::Fail;
use std::thread;
use std::thread::Threads;

// How often a thread lets others go first before it gives its part back.
const YIELDS: u64 = 10_000;

// Lets other threads go first for a while.
fn let_others_go() {
    for _ in 0..YIELDS {
        thread::yield_now();
    }
}

// Waits until a number is 1.
fn wait_for<R: Wait>(rt: &R, number: &AtomicU64) {
    for _ in rt.forever() {
        if number.load(Ordering::SeqCst) == 1 {
            return;
        }
        thread::yield_now();
    }
    unreachable!()
}

// Brings the first shard on and gives it back after a while, of which others are told as it has that: whether its turn was free.
fn bring_on_late(ring: &Ring<PartState>, mut seat: Seat<PartState>, is_taken: &AtomicU64) -> bool
    requires at { IsAt ring.now.table.shared.table_id seat.table_id seat.me.0 }
    requires may { MayBring 1 seat.me.0 }
    requires shards { ring.now.shards ≡ 3 }
{
    let hold = take_on(ring, &mut seat, 0);
    is_taken.store(1, Ordering::SeqCst);
    let Some(hold) = hold else {
        return false;
    };
    let_others_go();
    give(ring, &mut seat, hold);
    true
}

// Takes the first shard as soon as it can once another thread has it, and gives it back as it was: how far it reached.
fn look_in_time<R: Wait>(
    rt: &R,
    ring: &Ring<PartState>,
    mut seat: Seat<PartState>,
    is_taken: &AtomicU64,
) -> u64
    requires at { IsAt ring.now.table.shared.table_id seat.table_id seat.me.0 }
{
    wait_for(rt, is_taken);
    let hold = take(rt, ring, &mut seat, 0);
    let front = hold.part().front;
    give(ring, &mut seat, hold);
    front
}

// One thread brings the first shard on late, and another waits for that: whether the one had it, and how far the other finds it to reach.
fn take_while_held<R: Threads + Wait + Sync>(
    rt: &R,
    ring: &Ring<PartState>,
    archiver: Seat<PartState>,
    second: Seat<PartState>,
) -> (bool, u64)
    requires at { IsAt ring.now.table.shared.table_id archiver.table_id archiver.me.0 }
    requires may { MayBring 1 archiver.me.0 }
    requires second_at { IsAt ring.now.table.shared.table_id second.table_id second.me.0 }
    requires shards { ring.now.table.shared.key.layout.shards ≡ 3 }
{
    let is_taken = AtomicU64::new(0);
    let told = &is_taken;
    thread::join(
        rt,
        move || -> bool { bring_on_late(ring, archiver, told) },
        move || -> u64 { look_in_time(rt, ring, second, told) },
    )
}

#[test]
fn a_take_waits_until_the_part_is_given_back(rt: HostRuntime) -> Result<(), Fail> {
    let Opened {
        ring,
        seat: mut archiver,
    } = opened(rt.alloc())?;
    let second = split(&ring, &mut archiver, 0, 1);
    assert!(rt; put_and_take(&ring, &mut archiver, 0));
    assert!(rt; take_while_held(&rt, &ring, archiver, second) == (true, 1));
    Ok(())
}
