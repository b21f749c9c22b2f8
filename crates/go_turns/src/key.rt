// The turn of a place, without its part.
ghost use Rattle.std.specs.Prelude.{◌≡◌};

/// The turn of a place, which its holder has alone. It has to be given back, with a part.
pub struct TurnKey {
    /// The place.
    pub(crate) place: u32,
}

impl TurnKey {
    /// The place: that of a shard, or the file's behind them.
    pub fn place(&self) -> u32
        ensures { result ≡ self.now.place }
    {
        self.place
    }
}
