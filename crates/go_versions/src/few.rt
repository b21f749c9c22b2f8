//! The first versions, in place.
ghost use Rattle.std.specs.Prelude.{◌≡◌, ◌<◌, ◌≤◌, ◌-◌, ◌++◌, ◌∷◌, [], length, take, drop};

use crate::version::StoredVersion;
use std::marker::Model;

/// How many versions lie in place.
pub(crate) const FEW: usize = 4;

/// Up to four versions in place, in the order in which they were pushed.
#[derive(Drop)]
pub(crate) struct Few {
    // 32 bits, as the parts of a version have, so that no byte is lost to alignment
    used: u32,
    versions: [StoredVersion; FEW],
}

impl Model for Few {
    ghost use Rattle.std.specs.Prelude.{List, take};
    ghost use Rattle.go_versions.specs.Room.{IsFew};
    ghost use Rattle.go_versions.specs.Version.{Version};

    ghost Value = { List Version };

    ghost view = { λ few. take few.used few.versions };

    ghost invariant = { λ few. IsFew few.used few.versions };
}

impl Few {
    /// No version.
    pub(crate) fn new() -> Few
        ensures { result ≡ [] }
    {
        Few {
            used: 0,
            versions: [
                StoredVersion::new(0, 0),
                StoredVersion::new(0, 0),
                StoredVersion::new(0, 0),
                StoredVersion::new(0, 0),
            ],
        }
    }

    /// How many versions there are, at most `FEW`.
    pub(crate) fn len(&self) -> usize
        ensures count { result ≡ length self.now }
        ensures within { result ≤ 4 }
    {
        self.used as usize
    }

    /// The versions, in order.
    pub(crate) fn versions(&self) -> &[StoredVersion]
        ensures { result.now ≡ self.now }
    {
        &self.versions[..self.used as usize]
    }

    /// Puts a version behind the others.
    pub(crate) fn push(&mut self, version: StoredVersion)
        requires { length self.old < 4 }
        ensures { self.new ≡ self.old ++ version ∷ [] }
    {
        self.versions[self.used as usize] = version;
        self.used += 1;
    }

    /// Takes out the last version, if there is one.
    pub(crate) fn drop_last(&mut self)
        ensures { self.new ≡ take (length self.old - 1) self.old }
    {
        self.used = self.used.saturating_sub(1);
    }

    /// Takes out the first `count` versions.
    pub(crate) fn drop_front(&mut self, count: usize)
        requires { count ≤ length self.old }
        ensures { self.new ≡ drop count self.old }
    {
        self.versions[..self.used as usize].rotate_left(count);
        self.used -= count as u32;
    }
}
