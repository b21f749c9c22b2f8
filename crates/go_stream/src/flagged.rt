// The flag is waited for.
ghost use Rattle.std.specs.Prelude.{◌≡◌};
ghost use Rattle.atomic_table.specs.Table.{step};
ghost use mathlib.Core.Option.{none};
ghost use Rattle.go_rule.specs.Steps.{IsAt, LoadsFlag};
ghost use Rattle.go_ring.specs.Calls.{cause_of};

use go_api::Stop;
use go_core::Part;
use go_ring::RingCalls;
use go_rule::{Ring, Seat};
use std::sync::Wait;
use std::thread;

// Looks at the flag until it is up, and gives why it is.
pub(crate) fn wait_for_flag<T: Part, R: Wait>(rt: &R, ring: &Ring<T>, seat: &mut Seat<T>) -> Stop
    requires at { IsAt ring.now.table.shared.table_id seat.old.table_id seat.old.me.0 }
    ensures stays { (seat.new.table_id ≡ seat.old.table_id) × (seat.new.id ≡ seat.old.id) }
    ensures tells { LoadsFlag (step ring.now.table.shared.table_id.slots 3 0 0 none) seat.old.me (cause_of result) seat.new.me }
{
    for _ in rt.forever() {
        if let Some(why) = ring.flag(seat) {
            return why;
        }
        thread::yield_now();
    }
    unreachable!()
}
