// The raw count of a vertex.
ghost use Rattle.std.specs.Prelude.{◌≡◌, length};
ghost use Rattle.go_word.specs.Log.{raw, entries_from};

use crate::edge::Edge;

/// Counts the entries of a log that leave `s`, additions and deletions alike.
pub fn raw_of(edges: &[Edge], s: u32) -> u64
    ensures exact { result ≡ raw edges.now s }
    ensures own_entries { result ≡ length (entries_from s edges.now) }
{
    edges.iter().filter(|edge| edge.src == s).count() as u64
}
