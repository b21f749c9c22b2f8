// A part in hand.
ghost use Rattle.std.specs.Prelude.{◌≡◌};
ghost use Rattle.std.specs.Borrow.{Lends, sem};

use crate::key::TurnKey;
use crate::lifted::Lifted;

/// A part in hand, with its turn. It has to be given back.
pub struct Hold<T> {
    /// The turn.
    pub(crate) key: TurnKey,
    /// The part.
    pub(crate) part: T,
}

impl<T> Hold<T> {
    ghost use Rattle.go_turns.specs.contracts.hold.Hold.{the_row};
    ghost use Rattle.go_turns.specs.Lending.{with_part};

    /// The place whose turn it is.
    pub fn place(&self) -> u32
        ensures { result ≡ self.now.key.place }
    {
        self.key.place()
    }

    /// The part.
    pub fn part(&self) -> &T
        ensures { result.now ≡ self.now.part }
    {
        &self.part
    }

    /// The part, to be changed in place. The turn stays.
    pub fn part_mut(&mut self) -> &mut T
        ensures* writes_back { sem 𝓛 (Lends (the_row T.row) T.row self.entry result (with_part self.old)) }
        ensures shows { result.now ≡ self.old.part }
    {
        &mut self.part
    }

    /// Hands the part out, and its turn beside it.
    pub fn lift(self) -> Lifted<T>
        ensures key { result.key ≡ self.key }
        ensures part { result.part ≡ self.part }
    {
        let Hold { key, part } = self;
        Lifted { key, part }
    }

    /// Takes a part in, to go back with a turn.
    pub fn back(key: TurnKey, part: T) -> Hold<T>
        ensures key { result.key ≡ key }
        ensures part { result.part ≡ part }
    {
        Hold { key, part }
    }
}
