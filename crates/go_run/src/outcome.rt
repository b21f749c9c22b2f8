// How a run ended, with its disk.

use crate::status::Status;

/// How a run ended, with the disk that it was lent.
#[derive(Drop)]
pub struct Outcome<D> {
    /// How it ended.
    pub status: Status,
    /// The disk.
    pub disk: D,
}
