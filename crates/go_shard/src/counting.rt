// How many entries the vertices of a shard had, one after another.
ghost use Rattle.std.specs.Prelude.{◌≡◌, ◌<◌, ◌≤◌, ◌^◌, ◌++◌, All, OnOk, map};
ghost use Rattle.go_versions.specs.History.{count_at};
ghost use Rattle.go_shard.specs.Lane.{known};

use crate::slot::Slot;
use std::alloc::AllocError;

/// Adds how many entries each has in all.
pub(crate) fn add_known(slots: &[Slot], out: &mut Vec<u32>) -> Result<(), AllocError>
    requires small { All (λ lane. known lane < 2 ^ 32) slots.now }
    ensures { OnOk result (out.new.items ≡ out.old.items ++ map known slots.now) }
{
    for slot in slots {
        out.push(slot.known())?;
    }
    Ok(())
}

/// Adds how many each had at a front.
pub(crate) fn add_counts(slots: &[Slot], front: u64, out: &mut Vec<u32>) -> Result<(), AllocError>
    requires told { All (λ lane. lane.retired ≤ front) slots.now }
    ensures { OnOk result (out.new.items ≡ out.old.items ++ map (λ lane. count_at lane.versions front) slots.now) }
{
    for slot in slots {
        out.push(slot.count_at(front))?;
    }
    Ok(())
}
