// Worked rows of a shard that takes batches.
ghost use Rattle.std.specs.Prelude.{◌≡◌, IfOk};
ghost use Rattle.go_shard.specs.ShardState.{Keeps};

use crate::fixture::{add, begun, del, grown};
use crate::{Shard, split};
use std::alloc::{AllocError, Global};
use std::test::Fail;

#[test]
fn what_was_at_a_front_stays(rt: HostRuntime) -> Result<(), Fail> {
    let shard = grown(rt.alloc())?;
    assert_eq!(rt; shard.front(), 9);
    assert_eq!(rt; shard.cut(), 0);
    let early = shard.degree_at(1, 3);
    let late = shard.degree_at(1, 6);
    assert_eq!(rt; (early, late), (2, 4));
    assert_eq!(rt; shard.degree_at(1, 9), 4);
    assert_eq!(rt; shard.degree_at(3, 6), 1);
    let mut out = Vec::new(rt.alloc());
    shard.neighbours(1, early, &mut out)?;
    assert_eq!(rt; out.as_slice(), [2, 2].as_slice());
    shard.neighbours(1, late, &mut out)?;
    assert_eq!(rt; out.as_slice(), [2, 3].as_slice());
    Ok(())
}

// The batch needs memory for vertex 5, which it names last and the shard has no entries of.
#[test]
fn a_refused_batch_changes_nothing(rt: HostRuntime) -> Result<(), Fail> {
    let mut shard = begun(rt.alloc())?;
    match shard.append(&[add(1, 3), add(5, 1)], 6) {
        Ok(()) => assert_eq!(rt; shard.degree_at(1, 6), 3),
        Err(_) => {
            assert_eq!(rt; shard.front(), 3);
            assert_eq!(rt; shard.degree_at(1, 3), 2);
        }
    }
    Ok(())
}

#[test]
fn the_batch_is_taken_where_there_is_memory(rt: HostRuntime) -> Result<(), Fail> {
    let mut shard = begun(rt.alloc())?;
    shard.append(&[add(1, 3), add(5, 1)], 6)?;
    assert_eq!(rt; shard.degree_at(5, 6), 1);
    Ok(())
}

// Shard 1 of 3 over 8 vertices, after three entries.
fn thirds(alloc: Global) -> Result<Shard, AllocError>
    ensures index { IfOk result (λ shard. shard.index ≡ 1) }
    ensures shards { IfOk result (λ shard. shard.shards ≡ 3) }
    ensures vertices { IfOk result (λ shard. shard.vertices ≡ 8) }
    ensures cut { IfOk result (λ shard. shard.cut ≡ 0) }
    ensures kept { IfOk result (λ shard. Keeps shard 3) }
{
    let mut shard = Shard::new(alloc, 1, 3, 8)?;
    shard.append(&[add(4, 2), add(7, 2), add(4, 3)], 3)?;
    Ok(shard)
}

#[test]
fn the_number_of_shards_is_no_power_of_two(rt: HostRuntime) -> Result<(), Fail> {
    let shard = thirds(rt.alloc())?;
    let raw = shard.degree_at(4, 3);
    assert_eq!(rt; (shard.degree_at(1, 3), raw), (0, 2));
    assert_eq!(rt; shard.degree_at(7, 3), 1);
    let mut out = Vec::new(rt.alloc());
    shard.neighbours(4, raw, &mut out)?;
    assert_eq!(rt; out.as_slice(), [2, 3].as_slice());
    Ok(())
}

// Shard 0 of 1 over 64 vertices after two entries: so many that a small batch is taken entry by entry.
fn sparse(alloc: Global) -> Result<Shard, AllocError>
    ensures index { IfOk result (λ shard. shard.index ≡ 0) }
    ensures shards { IfOk result (λ shard. shard.shards ≡ 1) }
    ensures vertices { IfOk result (λ shard. shard.vertices ≡ 64) }
    ensures cut { IfOk result (λ shard. shard.cut ≡ 0) }
    ensures front { IfOk result (λ shard. shard.front ≡ 2) }
    ensures kept { IfOk result (λ shard. Keeps shard 2) }
{
    let mut shard = Shard::new(alloc, 0, 1, 64)?;
    shard.append(&[add(1, 2), add(40, 2)], 2)?;
    Ok(shard)
}

#[test]
fn a_refused_small_batch_changes_nothing(rt: HostRuntime) -> Result<(), Fail> {
    let mut shard = sparse(rt.alloc())?;
    match shard.append(&[add(1, 3), add(5, 1)], 6) {
        Ok(()) => assert_eq!(rt; shard.degree_at(1, 6), 2),
        Err(_) => {
            assert_eq!(rt; shard.front(), 2);
            assert_eq!(rt; shard.degree_at(1, 2), 1);
        }
    }
    Ok(())
}

#[test]
fn the_small_batch_is_taken_where_there_is_memory(rt: HostRuntime) -> Result<(), Fail> {
    let mut shard = sparse(rt.alloc())?;
    shard.append(&[add(1, 3), add(5, 1)], 6)?;
    let raw = shard.degree_at(1, 6);
    assert_eq!(rt; raw, 2);
    assert_eq!(rt; shard.degree_at(5, 6), 1);
    let mut out = Vec::new(rt.alloc());
    shard.neighbours(1, raw, &mut out)?;
    assert_eq!(rt; out.as_slice(), [2, 3].as_slice());
    Ok(())
}

#[test]
fn each_shard_has_the_entries_of_its_sources(rt: HostRuntime) -> Result<(), Fail> {
    let edges = [add(0, 1), add(1, 0), add(2, 3), del(1, 0)];
    let lists = split(rt.alloc(), &edges, 3)?;
    assert_eq!(rt; lists.len(), 3);
    assert_eq!(rt; lists[0].as_slice(), [add(0, 1)].as_slice());
    assert_eq!(rt; lists[1].as_slice(), [add(1, 0), del(1, 0)].as_slice());
    assert_eq!(rt; lists[2].as_slice(), [add(2, 3)].as_slice());
    Ok(())
}
