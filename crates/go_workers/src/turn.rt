// What a turn of a worker came to.
/// What a turn of a worker came to, with the front that it moves.
#[derive(Clone, Copy, Debug, PartialEq, Eq)]
pub enum Turn {
    /// The front was moved to there.
    Moved { front: u64 },
    /// There was nothing to take, and the front is there.
    Idle { front: u64 },
}
