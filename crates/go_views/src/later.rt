// The words of the entries that a copy has behind the archived front, by vertex.
ghost use Rattle.std.specs.Prelude.{◌≡◌, ◌+◌, ◌-◌, ◌%◌, ◌<◌, ◌≤◌, ◌^◌, ℕ, All, IfOk, length, map};
ghost use Rattle.go_word.specs.Log.{entries_from};
ghost use Rattle.go_word.specs.Word.{plain_word};
ghost use Rattle.go_shard.specs.ByVertex.{words_of};
ghost use Rattle.go_views.specs.Copying.{entries_at};

use go_shard::ByVertex;
use go_word::{Edge, decode};
use std::alloc::{AllocError, Global};

// Groups the entries of the words of some positions by vertex, each word in the slot of its position's remainder.
pub(crate) fn later_words(
    alloc: Global,
    buf: &[u64],
    from: u64,
    to: u64,
    vertices: usize,
) -> Result<ByVertex, AllocError>
    requires some { 0 < length buf.now }
    requires order { from ≤ to }
    requires small { to < 2 ^ 32 }
    requires inside { All (λ e. e.src < vertices) (entries_at (length buf.now) buf.now from (to - from)) }
    ensures vertices { IfOk result (λ by. length by.ends ≡ vertices) }
    ensures words { IfOk result (λ by. (v : ℕ) → v < vertices →
        words_of by v ≡ map plain_word (entries_from v (entries_at (length buf.now) buf.now from (to - from)))) }
{
    let entries = entries_of(alloc, buf, from, to)?;
    ByVertex::new(alloc, vertices, &entries)
}

// The entries of the words of some positions.
fn entries_of(alloc: Global, buf: &[u64], from: u64, to: u64) -> Result<Vec<Edge>, AllocError>
    requires some { 0 < length buf.now }
    requires order { from ≤ to }
    requires small { to < 2 ^ 32 }
    ensures { IfOk result (λ entries. entries.items ≡ entries_at (length buf.now) buf.now from (to - from)) }
{
    let mut entries = Vec::with_capacity(alloc, (to - from) as usize)?;
    let mut slot = (from % buf.len() as u64) as usize;
    for _ in from..to {
        entries.push_reserved(decode(buf[slot]));
        slot = next_slot(slot, buf.len());
    }
    Ok(entries)
}

// The slot behind another, of so many in a circle.
fn next_slot(slot: usize, slots: usize) -> usize
    requires { slot < slots }
    ensures { result ≡ (slot + 1) % slots }
{
    if slot + 1 == slots { 0 } else { slot + 1 }
}
