//! A version as it is kept: in twelve bytes, since there may be very many.
ghost use Rattle.std.specs.Prelude.{◌≡◌};

use std::marker::Model;

/// A front and a count; the front in two halves, so that no byte is lost to alignment.
#[derive(Drop)]
pub(crate) struct StoredVersion {
    front_high: u32,
    front_low: u32,
    count: u32,
}

impl Model for StoredVersion {
    ghost use Rattle.std.specs.Prelude.{◌+◌, ◌*◌, ◌^◌};
    ghost use Rattle.go_versions.specs.Version.{Version};

    ghost Value = { Version };

    ghost view = { λ stored. record {
      front = stored.front_high * 2 ^ 32 + stored.front_low;
      count = stored.count;
    } };
}

/// How many fronts share their high half.
const LOW_HALF: u64 = 1 << 32;

impl StoredVersion {
    /// The version with this front and this count.
    pub(crate) fn new(front: u64, count: u32) -> StoredVersion
        ensures { result ≡ record { front = front; count = count } }
    {
        StoredVersion {
            front_high: (front / LOW_HALF) as u32,
            front_low: (front % LOW_HALF) as u32,
            count,
        }
    }

    /// The front from which the count holds.
    pub(crate) fn front(&self) -> u64
        ensures { result ≡ self.now.front }
    {
        u64::from(self.front_high) * LOW_HALF + u64::from(self.front_low)
    }

    /// The count.
    pub(crate) fn count(&self) -> u32
        ensures { result ≡ self.now.count }
    {
        self.count
    }
}
