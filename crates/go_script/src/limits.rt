// The limits of the numbers that commands name.

/// The most vertices that `rank` may ask for.
pub const RANK_LIMIT: u32 = 1000;

/// The most entries that `update` may ask for.
pub const UPDATE_LIMIT: u32 = 1 << 16;
