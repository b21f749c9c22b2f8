// Where the shared words stand: the length, the two fronts, the flag, the turns from then on.

/// The index of the log's length.
pub const HEAD: usize = 0;

/// The index of the archived front.
pub const ARCHIVED: usize = 1;

/// The index of the durable front.
pub const DURABLE: usize = 2;

/// The index of the flag.
pub const FLAG: usize = 3;

/// The index of the first turn: one for each part, in their order, and the slots follow.
pub const TURNS: usize = 4;
