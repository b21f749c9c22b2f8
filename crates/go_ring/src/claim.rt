// Positions that a seat claimed and has still to fill.
ghost use Rattle.std.specs.Prelude.{◌≡◌, ◌≤◌, ◌+◌, ◌^◌, ◌<◌};

use go_word::Edge;

/// The most entries of one claim.
pub const CLAIM_MOST: usize = 64;

// What stands behind the edges of a claim.
pub(crate) const NO_EDGE: Edge = Edge {
    del: false,
    src: 0,
    dst: 0,
};

/// Positions that a seat claimed, with the edges that belong there. It has to be filled or abandoned.
pub struct Claim {
    /// The first position.
    pub(crate) first: u64,
    /// How many there are.
    pub(crate) len: u64,
    /// Their edges, and more behind these that count for nothing.
    pub(crate) edges: [Edge; CLAIM_MOST],
    ghost some: { 1 ≤ len },
    ghost most: { len ≤ 64 },
    ghost small: { first + len < 2 ^ 32 },
}

/// What came of filling a claim.
pub enum Fill {
    /// Its words stand.
    Done {
        /// The claim's first position.
        position: u64,
    },
    /// Its last slot isn't free yet.
    Held {
        /// The claim.
        claim: Claim,
        /// Up to here all is archived and durable.
        released: u64,
    },
}

impl Claim {
    /// The first position.
    pub fn first(&self) -> u64
        ensures { result ≡ self.now.first }
    {
        self.first
    }

    /// How many positions there are.
    pub fn len(&self) -> u64
        ensures { result ≡ self.now.len }
    {
        self.len
    }
}
