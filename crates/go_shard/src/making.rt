// The shards of a log without entries.
ghost use Rattle.std.specs.Prelude.{◌≤◌, [], List, IfOk};
ghost use Rattle.go_word.specs.declared.edge.Edge.{Edge as Entry};
ghost use Rattle.go_shard.specs.Parts.{HaveParts};

use crate::store::Shard;
use go_word::VERTEX_LIMIT;
use std::alloc::{AllocError, Global};

/// So many shards over so many vertices, before any entry.
pub fn empty_shards(alloc: Global, shards: u32, vertices: u32) -> Result<Vec<Shard>, AllocError>
    requires shared { 1 ≤ shards }
    requires some { 1 ≤ vertices }
    requires few { vertices ≤ VERTEX_LIMIT }
    ensures { IfOk result (λ made. (log : List Entry) → HaveParts vertices shards 0 [] log made.items) }
{
    let mut made = Vec::with_capacity(alloc, shards as usize)?;
    for i in 0..shards {
        made.push(Shard::new(alloc, i, shards, vertices)?)?;
    }
    Ok(made)
}
