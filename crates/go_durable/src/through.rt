// A write that is made stable at once.
ghost use Rattle.std.specs.Prelude.{◌≡◌, List, ℕ, length, OnErr, OnOk};
ghost use Rattle.go_text.specs.Causes.{HasCause};
ghost use Rattle.go_durable.specs.Moments.{LeavesOnly};
ghost use Rattle.go_durable.specs.Standing.{IsQuiet};
ghost use Rattle.go_durable.specs.Writing.{IsThere, IsTornOf, IsWritten, TellsOn};

use go_disk::{Disk, Failed};

// Writes bytes at a place, and syncs. A write that doesn't begin behind the end is no blunder.
pub(crate) fn write_through<D: Disk>(disk: &mut D, at: u64, bytes: &[u8]) -> Result<(), Failed>
    ensures moments { IsQuiet D.device disk.old → IsThere (D.device.contents disk.old) at →
        LeavesOnly D.device disk.old disk.new (IsTornOf (D.device.contents disk.old) at (length bytes.now)) }
    ensures done { IsQuiet D.device disk.old →
        OnOk result (IsWritten D.device at bytes.now disk.old disk.new) }
    ensures failed { IsQuiet D.device disk.old → OnErr result (D.device.base disk.new ≡ D.device.contents disk.old) }
    ensures told { TellsOn D.device disk.old disk.new }
    ensures cause { HasCause (D.device.faults disk.old) (D.device.faults disk.new) result }
{
    let Ok(()) = disk.write_at(at, bytes) else {
        return Err(Failed);
    };
    let Ok(()) = disk.sync() else {
        return Err(Failed);
    };
    Ok(())
}
