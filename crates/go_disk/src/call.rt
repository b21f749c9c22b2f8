// What a disk in memory remembers of a call.
ghost use Rattle.std.specs.Prelude.{◌≡◌};
ghost use Rattle.go_disk.specs.Recording.{is_sync};

/// A call as it is recorded. The bytes that a write wrote stand elsewhere, those of all writes one after another.
#[derive(Clone, Copy, Debug, PartialEq, Eq)]
pub(crate) enum Call {
    /// It changed nothing: a look at the bytes, or a fault that touched nothing.
    Looked,
    /// It wrote so many bytes at a place.
    Wrote { at: usize, count: usize },
    /// It failed to write so many bytes at a place.
    Tore { at: usize, count: usize },
    /// A sync that succeeded.
    Synced,
}

impl Call {
    // Whether it is a sync that succeeded.
    pub(crate) fn is_sync(&self) -> bool
        ensures { result ≡ is_sync self.now }
    {
        match self {
            Call::Looked | Call::Wrote { .. } | Call::Tore { .. } => false,
            Call::Synced => true,
        }
    }
}
