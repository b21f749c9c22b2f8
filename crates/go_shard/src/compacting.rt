// Compaction: vertices that have words get their neighbours at a front in place of them.
ghost use Rattle.std.specs.Prelude.{◌≡◌, ◌<◌, ℕ, length, All, IfOk, OnOk, OnErr};
ghost use Rattle.go_shard.specs.Compacting.{CanCompact, AreRenewals, HaveRenewed};

use crate::renewal::Renewal;
use crate::slot::Slot;
use std::alloc::{AllocError, Global};

/// Compacts the listed vertices at a front, or leaves all as it was: first all that they get is made, and then each takes it.
pub(crate) fn compact_listed(
    alloc: Global,
    slots: &mut [Slot],
    listed: &[u32],
    front: u64,
) -> Result<(), AllocError>
    requires inside { All (λ place. place < length slots.old) listed.now }
    requires can { All (CanCompact front) slots.old }
    ensures ok { OnOk result (HaveRenewed front slots.old slots.new listed.now) }
    ensures err { OnErr result (slots.new ≡ slots.old) }
{
    let mut left = renewals_of(alloc, slots, listed, front)?;
    while let Some(renewal) = left.pop() {
        if let Some(renewal) = renewal {
            slots[listed[left.len()] as usize].renew(renewal);
        }
    }
    Ok(())
}

// What the listed vertices become when they are compacted at a front.
fn renewals_of(
    alloc: Global,
    slots: &[Slot],
    listed: &[u32],
    front: u64,
) -> Result<Vec<Option<Renewal>>, AllocError>
    requires inside { All (λ place. place < length slots.now) listed.now }
    requires can { All (CanCompact front) slots.now }
    ensures { IfOk result (λ renewals. AreRenewals front slots.now listed.now renewals.items) }
{
    let mut renewals = Vec::with_capacity(alloc, listed.len())?;
    for place in listed {
        renewals.push(slots[*place as usize].compacted(alloc, front)?)?;
    }
    Ok(renewals)
}
