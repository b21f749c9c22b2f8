// How many entries of a run are a shard's.
ghost use Rattle.std.specs.Prelude.{◌≡◌, ◌≤◌, filter, length};
ghost use Rattle.go_shard.specs.Split.{is_of_shard};

use go_word::Edge;

// How many entries leave vertices of a shard.
pub(crate) fn own_in(edges: &[Edge], place: u32, shards: u32) -> usize
    requires { 1 ≤ shards }
    ensures { result ≡ length (filter (is_of_shard shards place) edges.now) }
{
    edges
        .iter()
        .filter(|edge| edge.src % shards == place)
        .count()
}
