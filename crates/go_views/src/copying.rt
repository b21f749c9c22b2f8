// The ring is copied until its end has come to a floor.
ghost use Rattle.std.specs.Prelude.{◌≡◌, ◌≤◌, IfOk, IfErr, length};
ghost use Rattle.go_word.specs.declared.word.TheConstants.{ID_LIMIT};
ghost use Rattle.go_rule.specs.Steps.{IsAt};
ghost use Rattle.go_rule.specs.Views.{frame_of};
ghost use Rattle.go_ring.specs.Calls.{cause_of};
ghost use Rattle.go_turns.specs.Going.{IsFlagged};
ghost use Rattle.go_views.specs.Copying.{HasComeTo};

use go_api::Stop;
use go_core::Part;
use go_ring::{Copied, RingCalls};
use go_rule::{Ring, Seat};
use std::sync::Wait;
use std::thread;

/// Copies the ring, again and again until the end is at or past the floor. Between two copies it looks at the flag, and lets other threads
/// go on.
pub fn copy_up_to<T: Part, R: Wait>(
    rt: &R,
    ring: &Ring<T>,
    seat: &mut Seat<T>,
    buf: &mut [u64],
    floor: u64,
) -> Result<Copied, Stop>
    requires at { IsAt ring.now.table.shared.table_id seat.old.table_id seat.old.me.0 }
    requires room { length buf.old ≡ ring.now.slots }
    requires ids { seat.old.me.0.about.vertices ≤ ID_LIMIT }
    ensures stays { (seat.new.table_id ≡ seat.old.table_id) × (seat.new.id ≡ seat.old.id) }
    ensures long { length buf.new ≡ length buf.old }
    ensures hand { seat.new.me.1 ≡ seat.old.me.1 }
    ensures comes { IfOk result (λ copied. HasComeTo (frame_of ring.now.table.shared.key) floor seat.old.me.0 seat.new.me.0 copied buf.new) }
    ensures stops { IfErr result (λ why. IsFlagged (frame_of ring.now.table.shared.key) ring.now.table.shared.table_id.slots (cause_of why)
        seat.old.me seat.new.me) }
{
    for _ in rt.forever() {
        let copied = ring.copy(seat, buf);
        if floor <= copied.end {
            return Ok(copied);
        }
        if let Some(why) = ring.flag(seat) {
            return Err(why);
        }
        thread::yield_now();
    }
    unreachable!()
}
