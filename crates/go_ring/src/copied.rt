// What came of copying a ring.

/// Why a copy ended where it did.
#[derive(Clone, Copy, Debug, PartialEq, Eq)]
pub enum CopyStop {
    /// There the log ends.
    Head {
        /// The log's length.
        head: u64,
    },
    /// There a word is claimed that doesn't stand yet.
    Unwritten {
        /// Its position.
        position: u64,
    },
    /// There the slots end that were free of later words as the copy began, or the front overtook them.
    Window {
        /// Up to here all was archived and durable as the copy began.
        from: u64,
    },
}

/// What a copy tells.
#[derive(Clone, Copy, Debug, PartialEq, Eq)]
pub struct Copied {
    /// The archived front, as it was after the words were read.
    pub archived: u64,
    /// The durable front, as it was then.
    pub durable: u64,
    /// The first position that wasn't copied.
    pub end: u64,
    /// Why the copy ended there.
    pub stop: CopyStop,
}
