// How many entries each vertex had at a front.
ghost use Rattle.std.specs.Prelude.{◌≡◌, ◌*◌, ◌^◌, ◌<◌, All, length};
ghost use Rattle.go_views.specs.Counts.{count_of};

use std::marker::Model;

/// How many entries each vertex had at a front, shard by shard.
#[derive(Drop)]
pub(crate) struct Counts {
    shards: usize,
    stripe: usize,
    list: Vec<u32>,
}

impl Model for Counts {
    ghost use Rattle.go_views.specs.Counts.{Striped, IsStriped};

    ghost Value = { Striped };

    ghost view = { λ counts. record { shards = counts.shards; stripe = counts.stripe; list = counts.list.items } };

    ghost invariant = { λ counts. IsStriped (record { shards = counts.shards; stripe = counts.stripe; list = counts.list.items }) };
}

impl Counts {
    /// The counts of so many shards, for each as many, one shard after another.
    pub(crate) fn new(shards: usize, stripe: usize, list: Vec<u32>) -> Counts
        requires some { 0 < shards }
        requires whole { length list.items ≡ shards * stripe }
        ensures is { result ≡ record { shards = shards; stripe = stripe; list = list.items } }
        ensures few { All (λ n. n < 2 ^ 32) list.items }
    {
        Counts {
            shards,
            stripe,
            list,
        }
    }

    /// How many shards there are.
    pub(crate) fn shards(&self) -> usize
        ensures shards { result ≡ self.now.shards }
        ensures some { 0 < result }
    {
        self.shards
    }

    /// How many vertices there is a count for.
    pub(crate) fn vertices(&self) -> usize
        ensures { result ≡ length self.now.list }
    {
        self.list.len()
    }

    /// The count of a vertex.
    pub(crate) fn of(&self, v: u32) -> u32
        requires { v < length self.now.list }
        ensures { result ≡ count_of self.now v }
    {
        let v = v as usize;
        self.list[v % self.shards * self.stripe + v / self.shards]
    }
}
