// An entry with its position, and what was read at a position ahead of its turn.
use go_word::Edge;

/// An entry of the log with its position in it.
#[derive(Clone, Copy, Debug, PartialEq, Eq)]
pub struct Entry {
    /// The position, counted from the beginning of the log.
    pub at: u64,
    /// The entry itself.
    pub edge: Edge,
}

/// A word that a party read at a position before the fronts were past it.
#[derive(Clone, Copy, Debug, PartialEq, Eq)]
pub struct Load {
    /// The position that it was read for.
    pub at: u64,
    /// The word that its slot held.
    pub word: u64,
    /// Whether a front at or below the position was read after the word.
    pub sure: bool,
}
