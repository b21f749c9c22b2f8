// Making a file that wasn't made yet.
ghost use Rattle.std.specs.Prelude.{ℕ, IfSome, OnOk};
ghost use Rattle.go_text.specs.Causes.{HasCause};
ghost use Rattle.go_blocks.specs.File.{IsVertexCount};
ghost use Rattle.go_durable.specs.Attaching.{IsLeft};
ghost use Rattle.go_durable.specs.Moments.{LeavesOnly};
ghost use Rattle.go_durable.specs.Reading.{IsUnmadeOf, IsGated, IsMade};
ghost use Rattle.go_durable.specs.Standing.{IsQuiet};

use crate::gate::open_behind;
use crate::through::write_through;
use go_blocks::{CLOSED, header};
use go_disk::{Disk, Failed};

// Makes the file of a disk whose bytes, so many of them, are not made yet.
pub(crate) fn make<D: Disk>(disk: &mut D, len: usize, vertices: u32) -> Result<(), Failed>
    requires { IsVertexCount vertices }
    ensures moments { IsQuiet D.device disk.old → IfSome (D.device.contents disk.old) (IsUnmadeOf len) →
        LeavesOnly D.device disk.old disk.new (IsLeft vertices (D.device.contents disk.old)) }
    ensures done { IsQuiet D.device disk.old → IfSome (D.device.contents disk.old) (IsUnmadeOf len) →
        OnOk result (IsMade D.device vertices disk.old disk.new) }
    ensures cause { HasCause (D.device.faults disk.old) (D.device.faults disk.new) result }
{
    let Ok(()) = close_gate(disk, len) else {
        return Err(Failed);
    };
    let bytes = header(vertices);
    let (_, body) = bytes.split_at(1);
    let Ok(()) = open_behind(disk, 0, body) else {
        return Err(Failed);
    };
    Ok(())
}

// Sees to it that the gate of the header stands closed before anything stands behind it.
fn close_gate<D: Disk>(disk: &mut D, len: usize) -> Result<(), Failed>
    ensures moments { (v : ℕ) → IsQuiet D.device disk.old → IfSome (D.device.contents disk.old) (IsUnmadeOf len) →
        LeavesOnly D.device disk.old disk.new (IsLeft v (D.device.contents disk.old)) }
    ensures done { IsQuiet D.device disk.old → IfSome (D.device.contents disk.old) (IsUnmadeOf len) →
        OnOk result (IsGated D.device disk.old disk.new) }
    ensures cause { HasCause (D.device.faults disk.old) (D.device.faults disk.new) result }
{
    if len >= 2 {
        return Ok(());
    }
    let Ok(()) = write_through(disk, 0, &[CLOSED]) else {
        return Err(Failed);
    };
    Ok(())
}
