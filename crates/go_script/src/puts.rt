// What commands put into the log.

ghost use Rattle.std.specs.Prelude.{◌≡◌};
ghost use Rattle.go_script.specs.Until.{is_listed};

use go_word::Edge;

/// What a command puts into the log.
#[derive(Clone, Copy, Debug, PartialEq, Eq)]
pub enum Puts {
    /// No entry.
    Nothing,
    /// One entry.
    Entry { edge: Edge },
    /// One entry, or none where there is no room for it.
    Offered { edge: Edge },
    /// The entries of an edge file.
    Listed,
}

impl Puts {
    // Whether the entries of a file are put.
    pub(crate) fn is_listed(self) -> bool
        ensures { result ≡ is_listed self }
    {
        match self {
            Puts::Listed => true,
            Puts::Nothing | Puts::Entry { .. } | Puts::Offered { .. } => false,
        }
    }
}
