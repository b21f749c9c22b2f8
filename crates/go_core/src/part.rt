// What a part of the store means: a shard, or the file.
ghost use Rattle.std.specs.Prelude.{◌≡◌, ℕ, List, ◌++◌};
ghost use Rattle.go_word.specs.declared.edge.Edge.{Edge};
ghost use Rattle.go_core.specs.declared.part.PartState.{PartState as State};
ghost use Rattle.go_core.specs.Parts.{Mark};

use crate::pin::Pins;

/// What the rule asks of a part: how far it reaches, and where it is a shard what it keeps.
#[derive(Debug, Drop)]
pub struct PartState {
    /// How many entries from the log's beginning it has taken in.
    pub front: u64,
    /// The front below which it has forgotten how it stood at each one.
    pub cut: u64,
    /// The fronts that views hold on to.
    pub pins: Pins,
}

/// A part of the store, as the rule sees it.
pub trait Part {
    /// How far it reaches, its cut and its pins. What isn't a shard has no cut and no pins.
    ghost state_of: { Self → State };

    /// It holds what the entries of a log up to its front make, from the first position of its ring on.
    ghost stands_for: { Self → ℕ → List Edge → Type 0 };

    /// The places that it fits: by the place, the number of shards and the number of vertices.
    ghost fits: { Self → ℕ → ℕ → ℕ → Type 0 };

    /// The fronts that it can tell of.
    ghost keeps: { Self → ℕ → Type 0 };

    /// Its disk failed, and it takes nothing in any more.
    ghost is_spent: { Self → Type 0 };

    /// The moment and the count of faults of its disk.
    ghost mark_of: { Self → Mark };

    /// What the images that its disk might have left since a mark recover to, over a log, a count of vertices and
    /// the first position. Of a part without a disk it holds always.
    ghost recovers: { Self → List Edge → ℕ → ℕ → Mark → Type 0 };

    /// How far it reaches.
    fn front(&self) -> u64
        ensures { result ≡ (state_of self.now).front };

    /// What it stands for over a log, it stands for over each longer one.
    ghost stands_on: { (part : Self) (first : ℕ) (log more : List Edge) → stands_for part first log → stands_for part first (log ++ more) };

    /// What its images recover to over a log, they recover to over each longer one.
    ghost recovers_on: { (part : Self) (log more : List Edge) (vertices first : ℕ) (mark : Mark) →
        recovers part log vertices first mark → recovers part (log ++ more) vertices first mark };
}

impl Part for PartState {
    ghost use Rattle.std.specs.Prelude.{◌<◌, ◌≤◌, ⊤};
    ghost use Rattle.go_core.specs.Parts.{Reaches, reaches_on, no_mark};

    ghost state_of = { λ s. s };

    ghost stands_for = { λ s first log. Reaches s log };

    ghost fits = { λ s place shards vertices. place ≤ shards };

    ghost keeps = { λ s front. (s.cut ≤ front) × (front ≤ s.front) };

    ghost is_spent = { λ s. ⊥ };

    ghost mark_of = { λ s. no_mark };

    ghost recovers = { λ s log vertices first mark. ⊤ };

    fn front(&self) -> u64 {
        self.front
    }

    ghost stands_on = { λ s first log more reaches. reaches_on s log more reaches };

    ghost recovers_on = { λ s log more vertices first mark recovers. recovers };
}
