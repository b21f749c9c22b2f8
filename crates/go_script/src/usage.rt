// What commands do with the places of their session.

/// What may stand at a place of a session.
#[derive(Clone, Copy, Debug, PartialEq, Eq)]
pub enum Kind {
    /// A view of the log's first entries.
    View,
    /// A stream of new entries.
    Stream,
}

/// What a command does with a place of its session.
#[derive(Clone, Copy, Debug, PartialEq, Eq)]
pub enum Use {
    /// It names no place.
    Nothing,
    /// It needs a free place, and leaves something of that kind there.
    Fills { place: u8, kind: Kind },
    /// It needs something of that kind at the place, and leaves it there.
    Reads { place: u8, kind: Kind },
    /// It needs something of that kind at the place, and leaves the place free.
    Frees { place: u8, kind: Kind },
}
