// The entries that the words of a copy hold.
ghost use Rattle.std.specs.Prelude.{◌≡◌, ◌++◌, ◌+◌, ◌-◌, ◌%◌, ◌<◌, ◌≤◌, ◌^◌, length, OnOk};
ghost use Rattle.go_stream.specs.Spans.{entries_from};

use go_word::{Edge, decode};
use std::alloc::AllocError;

// The slot behind another, of so many in a circle.
fn next_slot(slot: usize, slots: usize) -> usize
    requires { slot < slots }
    ensures { result ≡ (slot + 1) % slots }
{
    if slot + 1 == slots { 0 } else { slot + 1 }
}

// Adds the entries of the words of some positions, each in the slot of its position's remainder.
pub(crate) fn add_words(
    buf: &[u64],
    from: u64,
    to: u64,
    out: &mut Vec<Edge>,
) -> Result<(), AllocError>
    requires some { 0 < length buf.now }
    requires order { from ≤ to }
    requires few { to - from < 2 ^ 32 }
    ensures { OnOk result (out.new.items ≡ out.old.items ++ entries_from (length buf.now) from (to - from) buf.now) }
{
    out.reserve((to - from) as usize)?;
    let mut slot = (from % buf.len() as u64) as usize;
    for _ in from..to {
        out.push_reserved(decode(buf[slot]));
        slot = next_slot(slot, buf.len());
    }
    Ok(())
}
