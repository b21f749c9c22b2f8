// The shards of a log: compacting them up to one front.
ghost use Rattle.std.specs.Prelude.{◌≡◌, ℕ, List, OnOk};
ghost use Rattle.go_word.specs.declared.edge.Edge.{Edge as Entry};
ghost use Rattle.go_shard.specs.Parts.{HaveParts, CanBeCompacted, CanAllBeCompacted, IsUncut, MayHaveCompacted, MayAllHaveCompacted, AllAreCut};

use crate::store::Shard;
use std::alloc::AllocError;

/// Compacts the shards of a log up to one front, which goes past no front that is asked for.
///
/// After want of memory some shards may be compacted, and each still has its part.
pub fn compact_all(shards: &mut Vec<Shard>, front: u64) -> Result<(), AllocError>
    requires { CanAllBeCompacted front shards.old.items }
    ensures parts { (v so_many from : ℕ) (views : List ℕ) (log : List Entry) → HaveParts v so_many from views log shards.old.items →
        IsUncut front from views → HaveParts v so_many from views log shards.new.items }
    ensures cut { OnOk result (AllAreCut front shards.new.items) }
{
    compact_each(shards, front)
}

// Compacts each shard in turn.
fn compact_each(shards: &mut Vec<Shard>, front: u64) -> Result<(), AllocError>
    requires { CanAllBeCompacted front shards.old.items }
    ensures may { MayAllHaveCompacted front shards.old.items shards.new.items }
    ensures cut { OnOk result (AllAreCut front shards.new.items) }
{
    for i in 0..shards.len() {
        compact_one(&mut shards[i], front)?;
    }
    Ok(())
}

// Compacts a shard.
fn compact_one(shard: &mut Shard, front: u64) -> Result<(), AllocError>
    requires { CanBeCompacted front shard.old }
    ensures may { MayHaveCompacted front shard.old shard.new }
    ensures cut { OnOk result (shard.new.cut ≡ front) }
{
    shard.compact(front)
}
