// The kinds of fault that reading files and scripts finds, and the one error of a sink or a disk.

ghost use Rattle.std.specs.Prelude.{◌≡◌};
ghost use Rattle.go_text.specs.FaultKind.{word_of};

/// Why a line of a script, or an edge file, is refused.
#[derive(Clone, Copy, Debug, PartialEq, Eq)]
pub enum FaultKind {
    /// The first word of a line is no command.
    Word,
    /// A line has the wrong number of words.
    Count,
    /// A word is no number in its range.
    Number,
    /// A vertex is at or above the number of vertices.
    Vertex,
    /// A name is not UTF-8.
    Name,
    /// A place for views or streams is taken, or has none.
    Place,
    /// A line waits for more entries than are certain to come.
    Until,
    /// The bytes end within an entry.
    Short,
}

impl FaultKind {
    /// The word for the kind in a message, in lower case.
    pub fn word(self) -> &'static str
        ensures { result.now ≡ word_of self }
    {
        match self {
            FaultKind::Word => "word",
            FaultKind::Count => "count",
            FaultKind::Number => "number",
            FaultKind::Vertex => "vertex",
            FaultKind::Name => "name",
            FaultKind::Place => "place",
            FaultKind::Until => "until",
            FaultKind::Short => "short",
        }
    }
}

/// The error of a sink or a disk: a write, a read or a sync did not succeed. It says no more, since nobody could act on more.
#[derive(Clone, Copy, Debug, PartialEq, Eq)]
pub struct Failed;
