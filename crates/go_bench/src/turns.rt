// One seat takes a shard that is at home and gives it back, over and over.
ghost use Rattle.std.specs.Prelude.{◌≡◌};
ghost use Rattle.go_rule.specs.Steps.{IsAt};

use crate::ring::opened;
use go_core::PartState;
use go_rule::{Opened, Ring, Seat};
use go_turns::{give, try_take};
use std::alloc::Global;
use std::io;
use std::rt::Clock;
use std::time::Instant;

/// Takes a shard so often and gives it back.
pub fn run<R: Clock + Print + Eprint>(rt: &R, alloc: Global, count: u32) -> io::Result<()> {
    let Opened { ring, mut seat } = opened(alloc, 0)?;
    let begin = Instant::now(rt)?;
    let taken = take_and_give(&ring, &mut seat, count);
    let took = begin.elapsed(rt)?;
    println!(rt; "{taken} turns")?;
    eprintln!(rt; "{}", took.as_micros())
}

// Takes the first shard so often, and gives it back as it was: how often its turn was free.
fn take_and_give(ring: &Ring<PartState>, seat: &mut Seat<PartState>, count: u32) -> u32
    requires at { IsAt ring.now.table.shared.table_id seat.old.table_id seat.old.me.0 }
    ensures at { IsAt ring.now.table.shared.table_id seat.new.table_id seat.new.me.0 }
{
    let mut taken = 0u32;
    for _ in 0..count {
        if take_once(ring, seat) {
            taken = taken.saturating_add(1);
        }
    }
    taken
}

// Takes the first shard where its turn is free, and gives it back as it was.
fn take_once(ring: &Ring<PartState>, seat: &mut Seat<PartState>) -> bool
    requires at { IsAt ring.now.table.shared.table_id seat.old.table_id seat.old.me.0 }
    ensures at { IsAt ring.now.table.shared.table_id seat.new.table_id seat.new.me.0 }
{
    let Some(hold) = try_take(ring, seat, 0) else {
        return false;
    };
    give(ring, seat, hold);
    true
}
