// Why a call of a store stops.

/// Why a call of a store stops before it is done.
#[derive(Clone, Copy, Debug, PartialEq, Eq)]
pub enum Stop {
    /// The disk failed.
    Disk,
    /// Memory ran out.
    Memory,
}
