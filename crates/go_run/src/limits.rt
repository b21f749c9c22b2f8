// The limits of the program.

/// How many vertices there are where nothing else is asked for: ids are below it.
pub const VERTICES: u32 = 65536;

/// How many slots the ring has where nothing else is asked for.
pub const RING: u64 = 65536;

/// How many shards the vertices are divided among where nothing else is asked for.
pub const SHARDS: u32 = 8;

/// The name of the log file where no other is asked for.
pub const LOG_FILE: &str = "graph.log";

/// How many scripts may be run at once.
pub const SCRIPTS: usize = 8;

/// How many entries may be generated.
pub const EDGES: u64 = 1_000_000;

/// The greatest seed of generated entries.
pub const SEED_LIMIT: u64 = u64::MAX;

/// How many bytes a script or an edge file may have.
pub const TEXT_BYTES: u64 = 1 << 26;
