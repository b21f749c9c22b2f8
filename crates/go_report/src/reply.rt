// The replies to commands.

use crate::last_position::LastPosition;
use crate::lists::{EdgeList, Ids, RankList};
use go_text::Text;
use sqlite_items::Boxed;

/// The reply to one command. What is rare and large is boxed, so that a list of replies stays small.
#[derive(Debug, Drop)]
pub enum Reply {
    /// An edge was added; its entry has this position in the log.
    Added {
        position: u64,
    },
    /// An edge was deleted; the entry that says so has this position in the log.
    Deleted {
        position: u64,
    },
    /// An offered edge was added; its entry has this position in the log.
    Offered {
        position: u64,
    },
    /// An offered edge was not added: there was no room between the released front and the head.
    Busy {
        head: u64,
        released: u64,
    },
    /// The entries of a file were put, so many; the last one has this position, where there is one.
    Loaded {
        name: Boxed<Text>,
        count: u64,
        last: LastPosition,
    },
    /// A view of the log's first entries, as many as `front`, stands at the place.
    Viewed {
        place: u8,
        front: u64,
    },
    /// The number of neighbours of a vertex.
    Degree {
        vertex: u32,
        degree: u32,
    },
    /// The neighbours of a vertex, in order of addition.
    Neighbours {
        vertex: u32,
        list: Ids,
    },
    /// How many edges a vertex is from a root, where it can be reached.
    Level {
        root: u32,
        vertex: u32,
        level: Option<u32>,
    },
    /// How many vertices are at each level from a root, from 0 to the greatest one reached, and how many are not reached.
    Levels {
        root: u32,
        counts: Boxed<Ids>,
        unreached: u32,
    },
    /// The first vertices by their numbers of neighbours.
    Rank {
        list: RankList,
    },
    /// The distinct neighbours of a vertex, ascending.
    Hop {
        vertex: u32,
        list: Ids,
    },
    /// The view at the place was given up.
    Dropped {
        place: u8,
    },
    /// A stream that begins behind the log's first entries, as many as `cursor`, stands at the place.
    Streamed {
        place: u8,
        cursor: u64,
    },
    /// The entries of the log from one position to another, which the stream at the place has come to.
    Updated {
        place: u8,
        from: u64,
        to: u64,
        list: Boxed<EdgeList>,
    },
    /// The stream at the place was given up.
    Closed {
        place: u8,
    },
    /// So many entries stand in the log behind those that it began with.
    Until {
        asked: u64,
    },
    /// The log's first entries, as many as `front`, are on the disk.
    Synced {
        front: u64,
    },
    /// What the store keeps was compacted.
    Compacted,
}
