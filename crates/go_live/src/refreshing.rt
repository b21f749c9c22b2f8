// A seat is told again how long the log is.
ghost use Rattle.std.specs.Prelude.{◌≡◌, ℕ, ◌<◌, ◌≤◌, All};
ghost use Rattle.go_core.specs.declared.entry.Entry.{Entry};
ghost use Rattle.go_rule.specs.Steps.{IsAt};
ghost use Rattle.go_rule.specs.Views.{frame_of};
ghost use Rattle.go_turns.specs.Going.{HasGoneOn};
ghost use Rattle.go_live.specs.Handles.{KnowsLog};

use go_core::Part;
use go_rule::{Ring, Seat, load_head};

// Loads the log's length, by which the seat knows again that the log has all that it saw and owns.
pub(crate) fn refresh<T: Part>(ring: &Ring<T>, seat: &mut Seat<T>) -> u64
    requires at { IsAt ring.now.table.shared.table_id seat.old.table_id seat.old.me.0 }
    ensures stays { (seat.new.table_id ≡ seat.old.table_id) × (seat.new.id ≡ seat.old.id) }
    ensures hand { seat.new.me.1 ≡ seat.old.me.1 }
    ensures on { HasGoneOn (frame_of ring.now.table.shared.key) seat.old.me.0 seat.new.me.0 }
    ensures head { result ≡ seat.new.me.0.core.head }
    ensures told { seat.new.me.0.told ≡ seat.old.me.0.told }
    ensures pins { seat.new.me.0.stake ≡ seat.old.me.0.stake }
    ensures knows { (seen : ℕ) → seen ≤ seat.old.me.0.core.seen → KnowsLog seen seat.new.me.0 }
    ensures own { All (λ (x : Entry). x.at < seat.new.me.0.core.head) seat.new.me.0.core.own }
{
    load_head(ring, seat)
}
