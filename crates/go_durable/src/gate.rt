// The one way in which a file goes on: a body is made stable behind a closed gate, and then the gate is opened.
ghost use Rattle.std.specs.Prelude.{◌≡◌, ◌+◌, ◌<◌, ◌^◌, ◌++◌, [], ◌∷◌, List, ℕ, length, OnErr, OnOk};
ghost use Rattle.go_text.specs.Causes.{HasCause};
ghost use Rattle.go_blocks.specs.declared.layout.TheConstants.{CLOSED};
ghost use Rattle.go_durable.specs.Moments.{LeavesOnly};
ghost use Rattle.go_durable.specs.Standing.{IsShut};
ghost use Rattle.go_durable.specs.Writing.{IsShutOrOpened, IsOpenedOn, StaysShut, TellsOn};

use crate::through::write_through;
use go_blocks::OPEN;
use go_disk::{Disk, Failed};

// Writes a body behind the closed gate, the closed gate of the next block at its end, and then opens the gate: four
// calls of the disk. The gate is written only when what it opens can't be lost, so a crash shows the body whole or not
// at all.
pub(crate) fn open_behind<D: Disk>(disk: &mut D, gate: u64, body: &[u8]) -> Result<(), Failed>
    requires { gate + 1 < 2 ^ 64 }
    ensures moments { (front inner : List ℕ) → IsShut D.device front disk.old → gate ≡ length front →
        body.now ≡ inner ++ CLOSED ∷ [] →
        LeavesOnly D.device disk.old disk.new (IsShutOrOpened (D.device.contents disk.old) (gate + 1 + length body.now) front inner) }
    ensures done { (front inner : List ℕ) → IsShut D.device front disk.old → gate ≡ length front →
        body.now ≡ inner ++ CLOSED ∷ [] →
        OnOk result (IsOpenedOn D.device front inner disk.old disk.new) }
    ensures failed { (front : List ℕ) → IsShut D.device front disk.old → gate ≡ length front →
        OnErr result (StaysShut (D.device.contents disk.old) (D.device.base disk.new) front) }
    ensures told { TellsOn D.device disk.old disk.new }
    ensures cause { HasCause (D.device.faults disk.old) (D.device.faults disk.new) result }
{
    let Ok(()) = write_through(disk, gate + 1, body) else {
        return Err(Failed);
    };
    let Ok(()) = write_through(disk, gate, &[OPEN]) else {
        return Err(Failed);
    };
    Ok(())
}
