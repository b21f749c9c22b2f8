// Worked rows of a shard that is compacted and has pins.
ghost use Rattle.std.specs.Prelude.{◌≡◌, ◌<◌, ◌≤◌, ◌-◌, ◌^◌, ◌∷◌, [], true, length, All, IfOk};
ghost use Rattle.go_word.specs.Log.{IsWithin};
ghost use Rattle.go_shard.specs.ShardState.{Keeps, is_own};

use crate::Shard;
use crate::fixture::{add, del, grown};
use go_word::Edge;
use std::alloc::{AllocError, Global};
use std::process::Abort;
use std::test::Fail;

// The grown shard with its pin 9 at the front 3.
fn pinned(alloc: Global) -> Result<Shard, AllocError>
    ensures index { IfOk result (λ shard. shard.index ≡ 1) }
    ensures shards { IfOk result (λ shard. shard.shards ≡ 2) }
    ensures vertices { IfOk result (λ shard. shard.vertices ≡ 8) }
    ensures cut { IfOk result (λ shard. shard.cut ≡ 0) }
    ensures front { IfOk result (λ shard. shard.front ≡ 9) }
    ensures pins { IfOk result (λ shard. shard.pins ≡ record { id = 9; front = 3 } ∷ []) }
    ensures early { IfOk result (λ shard. Keeps shard 3) }
    ensures late { IfOk result (λ shard. Keeps shard 6) }
{
    let mut shard = grown(alloc)?;
    shard.pin(9)?;
    shard.move_pin(9, 3);
    Ok(shard)
}

#[test]
fn a_pin_holds_a_compaction_back(rt: HostRuntime) -> Result<(), Fail> {
    let mut shard = grown(rt.alloc())?;
    assert_eq!(rt; shard.free_pin(), 0);
    assert_eq!(rt; shard.settled(8), 8);
    assert_eq!(rt; shard.settled(5), 3);
    assert_eq!(rt; shard.pin(0)?, 0);
    assert_eq!(rt; shard.free_pin(), 1);
    assert_eq!(rt; shard.settled(8), 0);
    let shard = pinned(rt.alloc())?;
    assert_eq!(rt; shard.free_pin(), 0);
    assert_eq!(rt; shard.settled(6), 3);
    Ok(())
}

#[test]
fn a_compaction_keeps_what_is_asked_from_its_front_on(rt: HostRuntime) -> Result<(), Fail> {
    let mut shard = pinned(rt.alloc())?;
    shard.compact(3)?;
    assert_eq!(rt; shard.cut(), 3);
    let early = shard.degree_at(1, 3);
    let late = shard.degree_at(1, 6);
    assert_eq!(rt; (early, late), (2, 4));
    let mut out = Vec::new(rt.alloc());
    shard.neighbours(1, early, &mut out)?;
    assert_eq!(rt; out.as_slice(), [2, 2].as_slice());
    shard.neighbours(1, late, &mut out)?;
    assert_eq!(rt; out.as_slice(), [2, 3].as_slice());
    shard.unpin(9);
    shard.compact(6)?;
    assert_eq!(rt; shard.cut(), 6);
    let last = shard.degree_at(1, 6);
    shard.neighbours(1, last, &mut out)?;
    assert_eq!(rt; (last, out.as_slice()), (4, [2, 3].as_slice()));
    Ok(())
}

// Shard 0 of 1 over 8 vertices after a batch more, compacted as far as it can be without pins.
fn compacted_after(shard: Shard, batch: &[Edge], front: u64) -> Result<Shard, AllocError>
    requires index { shard.index ≡ 0 }
    requires shards { shard.shards ≡ 1 }
    requires vertices { shard.vertices ≡ 8 }
    requires pins { shard.pins ≡ [] }
    requires later { shard.front < front }
    requires small { front < 2 ^ 32 }
    requires short { length batch.now ≤ front - shard.front }
    requires ids { All (IsWithin 8) batch.now }
    requires own { All (λ e. is_own shard e ≡ true) batch.now }
    ensures index { IfOk result (λ shard. shard.index ≡ 0) }
    ensures shards { IfOk result (λ shard. shard.shards ≡ 1) }
    ensures vertices { IfOk result (λ shard. shard.vertices ≡ 8) }
    ensures pins { IfOk result (λ shard. shard.pins ≡ []) }
    ensures front { IfOk result (λ shard. shard.front ≡ front) }
    ensures kept { IfOk result (λ shard. Keeps shard front) }
    ensures cut { IfOk result (λ shard. shard.cut ≡ front) }
{
    let mut shard = shard;
    shard.append(batch, front)?;
    shard.compact(front)?;
    Ok(shard)
}

// The list of neighbours is made anew at the second compaction, with room for those of the next two, and at the fifth; the sixth
// has a deletion.
#[test]
fn a_hub_that_is_compacted_again_and_again_keeps_its_neighbours(
    rt: HostRuntime,
) -> Result<(), Fail> {
    let shard = Shard::new(rt.alloc(), 0, 1, 8)?;
    let shard = compacted_after(shard, &[add(1, 2), add(1, 3), add(1, 4)], 3)?;
    let shard = compacted_after(shard, &[add(1, 5), add(1, 6), add(1, 7)], 6)?;
    let shard = compacted_after(shard, &[add(1, 2), add(3, 1), add(1, 3)], 9)?;
    let shard = compacted_after(shard, &[add(1, 4), add(1, 5), add(1, 6)], 12)?;
    let mut out = Vec::new(rt.alloc());
    let raw = shard.degree_at(1, 12);
    shard.neighbours(1, raw, &mut out)?;
    assert_eq!(rt;
        out.as_slice(),
        [2, 3, 4, 5, 6, 7, 2, 3, 4, 5, 6].as_slice()
    );
    let shard = compacted_after(shard, &[add(1, 7), add(1, 0), add(1, 1)], 15)?;
    let shard = compacted_after(shard, &[add(1, 2), del(1, 3), add(1, 4)], 18)?;
    let raw = shard.degree_at(1, 18);
    shard.neighbours(1, raw, &mut out)?;
    assert_eq!(rt; raw, 17);
    assert_eq!(rt;
        out.as_slice(),
        [2, 4, 5, 6, 7, 2, 3, 4, 5, 6, 7, 0, 1, 2, 4].as_slice()
    );
    Ok(())
}

// The second deletion is of an edge that came behind the base, and the third of one that isn't there.
#[test]
fn a_deletion_takes_the_earliest_copy_out_of_the_base(rt: HostRuntime) -> Result<(), Fail> {
    let shard = Shard::new(rt.alloc(), 0, 1, 8)?;
    let mut shard = compacted_after(shard, &[add(1, 2), add(1, 3), add(1, 2)], 3)?;
    shard.append(&[del(1, 2), add(1, 4), del(1, 4), del(1, 5)], 7)?;
    let base = shard.degree_at(1, 3);
    let last = shard.degree_at(1, 7);
    assert_eq!(rt; (base, last), (3, 7));
    let mut out = Vec::new(rt.alloc());
    shard.neighbours(1, base, &mut out)?;
    assert_eq!(rt; out.as_slice(), [2, 3, 2].as_slice());
    shard.neighbours(1, last, &mut out)?;
    assert_eq!(rt; out.as_slice(), [3, 2].as_slice());
    shard.compact(7)?;
    let last = shard.degree_at(1, 7);
    shard.neighbours(1, last, &mut out)?;
    assert_eq!(rt; (last, out.as_slice()), (7, [3, 2].as_slice()));
    Ok(())
}

// The shard with a pin at the front 3, after a batch more and a compaction that goes as far as the pin lets it.
fn compacted_at_the_pin(shard: Shard, batch: &[Edge], front: u64) -> Result<Shard, AllocError>
    requires index { shard.index ≡ 1 }
    requires shards { shard.shards ≡ 2 }
    requires vertices { shard.vertices ≡ 8 }
    requires pins { shard.pins ≡ record { id = 9; front = 3 } ∷ [] }
    requires pinned { Keeps shard 3 }
    requires uncut { shard.cut ≤ 3 }
    requires later { shard.front < front }
    requires small { front < 2 ^ 32 }
    requires short { length batch.now ≤ front - shard.front }
    requires ids { All (IsWithin 8) batch.now }
    requires own { All (λ e. is_own shard e ≡ true) batch.now }
    ensures index { IfOk result (λ shard. shard.index ≡ 1) }
    ensures shards { IfOk result (λ shard. shard.shards ≡ 2) }
    ensures vertices { IfOk result (λ shard. shard.vertices ≡ 8) }
    ensures pins { IfOk result (λ shard. shard.pins ≡ record { id = 9; front = 3 } ∷ []) }
    ensures pinned { IfOk result (λ shard. Keeps shard 3) }
    ensures uncut { IfOk result (λ shard. shard.cut ≤ 3) }
    ensures front { IfOk result (λ shard. shard.front ≡ front) }
    ensures kept { IfOk result (λ shard. Keeps shard front) }
{
    let mut shard = shard;
    shard.append(batch, front)?;
    let settled = shard.settled(front);
    shard.compact(settled)?;
    Ok(shard)
}

// Each round adds an edge and deletes it again.
#[test]
fn a_pin_outlives_ten_compactions(rt: HostRuntime) -> Result<(), Fail> {
    let mut shard = pinned(rt.alloc())?;
    let mut out = Vec::new(rt.alloc());
    for round in 0..10u64 {
        shard = compacted_at_the_pin(shard, &[add(1, 5), del(1, 5)], 11 + 2 * round)?;
        assert_eq!(rt; shard.cut(), 3);
        let seen = shard.degree_at(1, 3);
        shard.neighbours(1, seen, &mut out)?;
        assert_eq!(rt; (seen, out.as_slice()), (2, [2, 2].as_slice()));
    }
    shard.unpin(9);
    let front = shard.settled(29);
    assert_eq!(rt; front, 29);
    shard.compact(front)?;
    let last = shard.degree_at(1, front);
    shard.neighbours(1, last, &mut out)?;
    assert_eq!(rt; (last, out.as_slice()), (24, [2, 3].as_slice()));
    Ok(())
}

// Shard 0 of 1 over 8 vertices, cut at 3: of what came behind it one vertex has a deletion, one more than its list has room for, and
// one is new.
fn uncut(alloc: Global) -> Result<Shard, AllocError>
    ensures index { IfOk result (λ shard. shard.index ≡ 0) }
    ensures shards { IfOk result (λ shard. shard.shards ≡ 1) }
    ensures vertices { IfOk result (λ shard. shard.vertices ≡ 8) }
    ensures pins { IfOk result (λ shard. shard.pins ≡ []) }
    ensures cut { IfOk result (λ shard. shard.cut ≡ 3) }
    ensures front { IfOk result (λ shard. shard.front ≡ 8) }
    ensures early { IfOk result (λ shard. Keeps shard 3) }
    ensures late { IfOk result (λ shard. Keeps shard 6) }
{
    let shard = Shard::new(alloc, 0, 1, 8)?;
    let mut shard = compacted_after(shard, &[add(1, 2), add(1, 3), add(3, 1)], 3)?;
    shard.append(&[del(1, 2), add(3, 2), add(5, 1)], 6)?;
    shard.append(&[add(1, 4), add(3, 5)], 8)?;
    Ok(shard)
}

// What the uncut shard answers at the front 6, before a compaction up to there and after it.
fn answers_at_six(rt: &impl Abort, shard: &Shard, out: &mut Vec<u32>) -> Result<(), AllocError>
    requires shards { shard.now.shards ≡ 1 }
    requires index { shard.now.index ≡ 0 }
    requires vertices { shard.now.vertices ≡ 8 }
    requires kept { Keeps shard.now 6 }
    requires uncut { shard.now.cut ≤ 6 }
{
    for (vertex, raw, list) in [
        (1, 3, [3].as_slice()),
        (3, 2, [1, 2].as_slice()),
        (5, 1, [1].as_slice()),
    ] {
        let count = shard.degree_at(vertex, 6);
        shard.neighbours(vertex, count, out)?;
        assert_eq!(rt; (count, out.as_slice()), (raw, list));
    }
    Ok(())
}

#[test]
fn a_refused_compaction_changes_nothing(rt: HostRuntime) -> Result<(), Fail> {
    let mut shard = uncut(rt.alloc())?;
    let mut out = Vec::with_capacity(rt.alloc(), 8)?;
    match shard.compact(6) {
        Ok(()) => answers_at_six(&rt, &shard, &mut out)?,
        Err(_) => {
            assert_eq!(rt; shard.cut(), 3);
            let base = shard.degree_at(1, 3);
            shard.neighbours(1, base, &mut out)?;
            assert_eq!(rt; (base, out.as_slice()), (2, [2, 3].as_slice()));
            answers_at_six(&rt, &shard, &mut out)?;
        }
    }
    Ok(())
}

#[test]
fn the_compaction_is_made_where_there_is_memory(rt: HostRuntime) -> Result<(), Fail> {
    let mut shard = uncut(rt.alloc())?;
    let mut out = Vec::with_capacity(rt.alloc(), 8)?;
    shard.compact(6)?;
    assert_eq!(rt; shard.cut(), 6);
    answers_at_six(&rt, &shard, &mut out)?;
    Ok(())
}
