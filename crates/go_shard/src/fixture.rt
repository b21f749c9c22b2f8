// What tests begin with.
ghost use Rattle.std.specs.Prelude.{◌≡◌, [], IfOk};
ghost use Rattle.go_shard.specs.ShardState.{Keeps};

use crate::Shard;
use go_word::Edge;
use std::alloc::{AllocError, Global};

/// An addition.
pub(crate) fn add(src: u32, dst: u32) -> Edge
    ensures src { result.src ≡ src }
    ensures dst { result.dst ≡ dst }
{
    Edge {
        del: false,
        src,
        dst,
    }
}

/// A deletion.
pub(crate) fn del(src: u32, dst: u32) -> Edge
    ensures src { result.src ≡ src }
    ensures dst { result.dst ≡ dst }
{
    Edge {
        del: true,
        src,
        dst,
    }
}

/// Shard 1 of 2 over 8 vertices, after three entries.
pub(crate) fn begun(alloc: Global) -> Result<Shard, AllocError>
    ensures index { IfOk result (λ shard. shard.index ≡ 1) }
    ensures shards { IfOk result (λ shard. shard.shards ≡ 2) }
    ensures vertices { IfOk result (λ shard. shard.vertices ≡ 8) }
    ensures cut { IfOk result (λ shard. shard.cut ≡ 0) }
    ensures front { IfOk result (λ shard. shard.front ≡ 3) }
    ensures pins { IfOk result (λ shard. shard.pins ≡ []) }
    ensures kept { IfOk result (λ shard. Keeps shard 3) }
{
    let mut shard = Shard::new(alloc, 1, 2, 8)?;
    shard.append(&[add(1, 2), add(3, 2), add(1, 2)], 3)?;
    Ok(shard)
}

/// The same after two entries more, and a range of the log without any.
pub(crate) fn grown(alloc: Global) -> Result<Shard, AllocError>
    ensures index { IfOk result (λ shard. shard.index ≡ 1) }
    ensures shards { IfOk result (λ shard. shard.shards ≡ 2) }
    ensures vertices { IfOk result (λ shard. shard.vertices ≡ 8) }
    ensures cut { IfOk result (λ shard. shard.cut ≡ 0) }
    ensures front { IfOk result (λ shard. shard.front ≡ 9) }
    ensures pins { IfOk result (λ shard. shard.pins ≡ []) }
    ensures early { IfOk result (λ shard. Keeps shard 3) }
    ensures late { IfOk result (λ shard. Keeps shard 6) }
    ensures last { IfOk result (λ shard. Keeps shard 9) }
{
    let mut shard = begun(alloc)?;
    shard.append(&[del(1, 2), add(1, 3)], 6)?;
    shard.append(&[], 9)?;
    Ok(shard)
}
