// How vertices lie in stripes over shards: which place a vertex has in its shard.
ghost use Rattle.std.specs.Prelude.{◌≡◌, ◌<◌, ◌/◌, ◌%◌};

use std::marker::Model;

/// Finds the place of a vertex in its shard. Contracts see the number of shards.
#[derive(Clone, Copy)]
pub(crate) struct Striping {
    shards: u32,
    /// How many zeros `shards` ends with: where it is a power of two, a shift by so many divides by it.
    shift: u32,
}

impl Model for Striping {
    ghost use Rattle.std.specs.Prelude.{ℕ, ◌≡◌, ◌<◌};
    ghost use Rattle.std.specs.Int.{w32, trailing_zeros};
    ghost use Rattle.std.proofs.Common.{sym};

    ghost Value = { ℕ };

    ghost view = { λ striping. striping.shards };

    ghost invariant = { λ striping. (0 < striping.shards) × (striping.shift ≡ trailing_zeros w32 striping.shards) };

    // the number gives its shift back, so this may be `Copy`
    ghost inverse = { λ shards. record { shards = shards; shift = trailing_zeros w32 shards } };

    ghost inverse_ok = { λ striping h i. record { shards = striping.shards; shift = sym h.1 i } };
}

impl Striping {
    /// For so many shards.
    pub(crate) fn new(shards: u32) -> Striping
        requires { 0 < shards }
        ensures { result ≡ shards }
    {
        Striping {
            shards,
            shift: shards.trailing_zeros(),
        }
    }

    /// The place of a vertex in its shard, without a division where the number of shards is a power of two.
    pub(crate) fn place_of(self, v: u32) -> usize
        ensures { result ≡ v / self }
    {
        let place = if 1 << self.shift == self.shards {
            v >> self.shift
        } else {
            v / self.shards
        };
        place as usize
    }

    /// The shard of a vertex, likewise.
    pub(crate) fn shard_of(self, v: u32) -> usize
        ensures { result ≡ v % self }
    {
        let shard = if 1 << self.shift == self.shards {
            v & (self.shards - 1)
        } else {
            v % self.shards
        };
        shard as usize
    }
}
