// What calls of a store answer besides numbers.

/// What a store answers to an entry that is only put where the ring has room.
#[derive(Clone, Copy, Debug, PartialEq, Eq)]
pub enum Offer {
    /// The entry was put, and this is its position.
    At { position: u64 },
    /// The ring is full: so many positions are given, and so many of them have left the ring.
    Busy { head: u64, released: u64 },
}

/// Whether a log has come to a front.
#[derive(Clone, Copy, Debug, PartialEq, Eq)]
pub enum Reached {
    /// It has: this is the front.
    Yes { front: u64 },
    /// It hasn't as far as the session sees it: so many entries.
    NotYet { seen: u64 },
}

/// The entries of a log from one front up to another.
#[derive(Clone, Copy, Debug, PartialEq, Eq)]
pub struct Span {
    /// The position of the first one.
    pub from: u64,
    /// The position behind the last one.
    pub to: u64,
}
