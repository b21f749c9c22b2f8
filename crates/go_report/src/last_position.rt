// Where the last entry of a load stands.
ghost use Rattle.std.specs.Prelude.{◌≡◌, None, IfOk};

use std::alloc::{AllocError, Global};
use std::marker::Model;

/// The position of the last entry of a load, where there is one, which contracts see as just that.
///
/// Its memory is taken before an entry is put, and the position comes later.
#[derive(Debug, Drop)]
pub struct LastPosition {
    position: Box<Option<u64>>,
}

impl Model for LastPosition {
    ghost use Rattle.std.specs.Prelude.{ℕ, Option};

    ghost Value = { Option ℕ };

    ghost view = { λ last. last.position.value };
}

impl LastPosition {
    /// That there is none yet, with the memory for one.
    pub fn new(alloc: Global) -> Result<LastPosition, AllocError>
        ensures { IfOk result (λ last. last ≡ None) }
    {
        let position = Box::new(alloc, None)?;
        Ok(LastPosition { position })
    }

    /// The position becomes this one.
    pub fn set(&mut self, position: Option<u64>)
        ensures { self.new ≡ position }
    {
        *self.position = position;
    }

    /// The position, where there is one.
    pub fn get(&self) -> Option<u64>
        ensures { result ≡ self.now }
    {
        *self.position
    }
}
