// Limits of a log file, and of a call that reads it.

/// A file of more bytes is refused.
pub const FILE_LIMIT: u64 = 1 << 30;

// The length of a word in bytes.
pub(crate) const WORD_LENGTH: usize = 8;

// One call reads at most so many bytes of a range: as many as the words of a full block.
pub(crate) const READ_LIMIT: usize = 1 << 19;
