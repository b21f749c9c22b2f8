// What stands at a place of a session.

/// How many places a session has.
pub const PLACES: usize = 4;

/// What a session keeps at one of its places.
#[derive(Clone, Copy, Debug, PartialEq, Eq)]
pub enum Place {
    /// Nothing.
    Free,
    /// A view of the log's first entries, as many as its front.
    View { front: u64 },
    /// A stream of the log's entries, which has come to its cursor.
    Stream { cursor: u64 },
}
