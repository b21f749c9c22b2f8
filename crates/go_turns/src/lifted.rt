// A part out of a hold.
use crate::key::TurnKey;

/// A part that was lifted out of a hold, and the turn with which it goes back.
pub struct Lifted<T> {
    /// The turn.
    pub key: TurnKey,
    /// The part.
    pub part: T,
}
