// Reading a disk whole.
ghost use Rattle.std.specs.Prelude.{◌≤◌};
ghost use Rattle.go_durable.specs.Reading.{IsLookedAt, ReadsWhole};
ghost use Rattle.go_durable.specs.Standing.{IsQuiet};

use crate::fault::OpenFault;
use crate::limits::FILE_LIMIT;
use go_disk::Disk;
use std::alloc::Global;

// All the bytes, unless there are too many. An empty disk isn't read.
pub(crate) fn read_whole<D: Disk>(alloc: Global, disk: &mut D) -> Result<Vec<u8>, OpenFault<()>>
    ensures looked { IsQuiet D.device disk.old →
        IsLookedAt D.device disk.old disk.new }
    ensures answer { ReadsWhole D.device disk.old disk.new result }
    ensures count { D.device.faults disk.old ≤ D.device.faults disk.new }
{
    let Ok(len) = disk.len() else {
        return Err(OpenFault::Disk { disk: () });
    };
    if len > FILE_LIMIT {
        return Err(OpenFault::TooLong { len, disk: () });
    }
    let Ok(mut bytes) = vec![in alloc; 0; len as usize] else {
        return Err(OpenFault::Memory { disk: () });
    };
    if len == 0 {
        return Ok(bytes);
    }
    let Ok(()) = disk.read(0, &mut bytes) else {
        return Err(OpenFault::Disk { disk: () });
    };
    Ok(bytes)
}
