// The neighbours of a vertex: what its shard tells, and what came later.
ghost use Rattle.std.specs.Prelude.{◌≡◌, ◌≤◌, ◌++◌, List, All, Contains, length, map, take, OnOk};
ghost use Rattle.go_word.specs.declared.edge.Edge.{Edge as Entry};
ghost use Rattle.go_word.specs.Log.{IsWithin, entries_from};
ghost use Rattle.go_word.specs.Neighbours.{neighbours};
ghost use Rattle.go_word.specs.Word.{IsStorable, plain_word};
ghost use Rattle.go_shard.specs.ShardState.{IsOf, Keeps};
ghost use Rattle.go_shard.specs.Stands.{Stands};

use crate::store::Shard;
use go_net::take_in;
use go_word::Pin;
use std::alloc::{AllocError, Global};

/// Gives the neighbours of a vertex after the log's entries up to a front that its shard keeps, and those in the words behind
/// it, into `out`, which is cleared first.
///
/// After want of memory nothing is claimed of `out`.
pub fn list_neighbours(
    alloc: Global,
    shard: &Shard,
    v: u32,
    front: u64,
    later: &[u64],
    out: &mut Vec<u32>,
) -> Result<(), AllocError>
    requires own { IsOf shard.now v }
    requires kept { Keeps shard.now front }
    requires uncut { shard.now.cut ≤ front }
    ensures { (log more : List Entry) → Stands shard.now log → All IsStorable more → later.now ≡ map plain_word (entries_from v more) →
        OnOk result (out.new.items ≡ neighbours (take front log ++ more) v) }
{
    let raw = shard.degree_at(v, front);
    shard.neighbours(v, raw, out)?;
    take_in(alloc, later, out)
}

/// The same at the front of a pin, which the shard has reached.
pub fn list_pinned(
    alloc: Global,
    shard: &Shard,
    v: u32,
    pin: Pin,
    later: &[u64],
    out: &mut Vec<u32>,
) -> Result<(), AllocError>
    requires own { IsOf shard.now v }
    requires pinned { Contains shard.now.pins pin }
    ensures within { pin.front ≤ shard.now.front }
    ensures list { (log more : List Entry) → Stands shard.now log → All (IsWithin shard.now.vertices) more →
        later.now ≡ map plain_word (entries_from v more) → OnOk result (out.new.items ≡ neighbours (take pin.front log ++ more) v) }
{
    list_neighbours(alloc, shard, v, shard.pinned_front(pin), later, out)
}
