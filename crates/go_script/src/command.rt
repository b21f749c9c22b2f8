// The commands of a script.
ghost use Rattle.std.specs.Prelude.{◌≡◌};
ghost use Rattle.go_script.specs.Commands.{entry_of, use_of, put_by};
ghost use Rattle.go_script.specs.Until.{asked_by};

use crate::puts::Puts;
use crate::usage::{Kind, Use};
use go_text::Text;
use go_word::Edge;
use sqlite_items::Boxed;

/// What one line of a script asks for.
#[derive(Debug, Drop)]
pub enum Command {
    /// Adds an edge.
    Add { src: u32, dst: u32 },
    /// Deletes an edge: of those that are there, the one that was added first.
    Del { src: u32, dst: u32 },
    /// Adds an edge if there is room for it now.
    Offer { src: u32, dst: u32 },
    /// Puts the entries of an edge file, one after another. The name is boxed, so that a list of commands stays small.
    Load { name: Boxed<Text> },
    /// Takes a view of the log as it stands, and keeps it at a place.
    View { place: u8 },
    /// Gives the view at a place up.
    Drop { place: u8 },
    /// Asks for the number of neighbours of a vertex in the view at a place.
    Degree { place: u8, vertex: u32 },
    /// Asks for the neighbours of a vertex in the view at a place.
    Neigh { place: u8, vertex: u32 },
    /// Asks for the distinct neighbours of a vertex in the view at a place.
    Hop { place: u8, vertex: u32 },
    /// Asks how far a vertex is from a root in the view at a place.
    Level { place: u8, root: u32, vertex: u32 },
    /// Asks how many vertices are how far from a root in the view at a place.
    Bfs { place: u8, root: u32 },
    /// Asks for so many vertices with the most neighbours in the view at a place.
    Rank { place: u8, count: u32 },
    /// Begins a stream of new entries at the end of the log as it stands, and keeps it at a place.
    Stream { place: u8 },
    /// Gives the stream at a place up.
    Close { place: u8 },
    /// Asks for the next entries of the stream at a place, so many at most.
    Update { place: u8, max: u32 },
    /// Waits until so many entries stand in the log behind those that it began with.
    Until { asked: u64 },
    /// Waits until all that the session has seen is on the disk.
    Sync,
    /// Rests what the store keeps for views on fewer entries, where no view needs them apart.
    Compact,
}

impl Command {
    /// What the command does with a place of its session.
    pub fn use_of(&self) -> Use
        ensures { result ≡ use_of self.now }
    {
        match self {
            Command::View { place } => Use::Fills {
                place: *place,
                kind: Kind::View,
            },
            Command::Drop { place } => Use::Frees {
                place: *place,
                kind: Kind::View,
            },
            Command::Degree { place, .. }
            | Command::Neigh { place, .. }
            | Command::Hop { place, .. }
            | Command::Level { place, .. }
            | Command::Bfs { place, .. }
            | Command::Rank { place, .. } => Use::Reads {
                place: *place,
                kind: Kind::View,
            },
            Command::Stream { place } => Use::Fills {
                place: *place,
                kind: Kind::Stream,
            },
            Command::Close { place } => Use::Frees {
                place: *place,
                kind: Kind::Stream,
            },
            Command::Update { place, .. } => Use::Reads {
                place: *place,
                kind: Kind::Stream,
            },
            Command::Add { .. }
            | Command::Del { .. }
            | Command::Offer { .. }
            | Command::Load { .. }
            | Command::Until { .. }
            | Command::Sync
            | Command::Compact => Use::Nothing,
        }
    }

    /// What the command puts into the log.
    pub fn puts(&self) -> Puts
        ensures { result ≡ put_by self.now }
    {
        match self {
            Command::Add { src, dst } => Puts::Entry {
                edge: edge(false, *src, *dst),
            },
            Command::Del { src, dst } => Puts::Entry {
                edge: edge(true, *src, *dst),
            },
            Command::Offer { src, dst } => Puts::Offered {
                edge: edge(false, *src, *dst),
            },
            Command::Load { .. } => Puts::Listed,
            _ => Puts::Nothing,
        }
    }

    // For how many entries the command waits, where it waits.
    pub(crate) fn asked(&self) -> Option<u64>
        ensures { result ≡ asked_by self.now }
    {
        match self {
            Command::Until { asked } => Some(*asked),
            _ => None,
        }
    }
}

// The entry that adds or deletes an edge.
fn edge(del: bool, src: u32, dst: u32) -> Edge
    ensures { result ≡ entry_of del src dst }
{
    Edge { del, src, dst }
}
