// Whether there is room for a claim.

/// Whether a ring has a free slot.
#[derive(Clone, Copy, Debug, PartialEq, Eq)]
pub enum Room {
    /// It has.
    Free,
    /// It hasn't: the log is a lap or more past what is released.
    Full {
        /// The log's length.
        head: u64,
        /// Up to here all is archived and durable.
        released: u64,
    },
}
