// What is left of a log that has ended.
use go_api::Stop;

/// What is left of a log that has ended.
#[derive(Drop)]
pub struct Finished<D> {
    /// The disk.
    pub disk: D,
    /// So many entries of the log are stable.
    pub durable: u64,
    /// Why not all of them are, if they aren't.
    pub stop: Option<Stop>,
}
