// The limits of a store. That of its vertices is one of entries.

/// The fewest slots that a ring may have. The number of its slots is a power of two.
pub const FEWEST_SLOTS: u64 = 128;

/// The most slots that a ring may have.
pub const SLOT_LIMIT: u64 = 1 << 20;

/// The most shards that the vertices may be divided among.
pub const SHARD_LIMIT: u32 = 64;

/// The most entries that a log may have.
pub const LOG_ENTRIES: u64 = 1 << 26;
