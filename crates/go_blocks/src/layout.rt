// The layout of a log file: gates, letters, limits, and offsets and sizes in bytes. docs/FORMAT.md has the table.

/// The byte of a gate that is closed; every other byte is an open gate.
pub const CLOSED: u8 = 0;

/// The byte that a gate is opened with.
pub const OPEN: u8 = 1;

/// The length of a gate.
pub const GATE_LENGTH: usize = 1;

/// Where the letters stand, behind the gate of the header.
pub const MAGIC_AT: u64 = 1;

/// The letters of each file.
pub const MAGIC: [u8; 8] = [b'G', b'R', b'O', b'N', b'E', b'L', b'O', b'G'];

/// Where the version stands.
pub const VERSION_AT: u64 = 9;

/// The version of the format.
pub const VERSION: u16 = 1;

/// Where the number of vertices stands.
pub const VERTICES_AT: u64 = 11;

/// Where the gate of the first block stands.
pub const FIRST_GATE: u64 = 15;

/// The header with the gate of the first block.
pub const HEADER_LENGTH: usize = 16;

/// Where the count of a block stands, from its gate on.
pub const COUNT_AT: u64 = 1;

/// Where the words of a block stand, from its gate on.
pub const WORDS_AT: u64 = 5;

/// What a block takes beside its words behind its gate: its count, and the gate of the next block.
pub const BLOCK_FRAME: usize = 5;

/// A block has at most so many words.
pub const COUNT_LIMIT: u32 = 1 << 16;

/// The length of a word.
pub const WORD_LENGTH: usize = 8;
