// Words are read in their turn, one after another.
ghost use Rattle.std.specs.Prelude.{◌≡◌, ◌+◌, ◌≤◌, length, take, drop};
ghost use Rattle.go_rule.specs.Steps.{IsAt, CanTakeNext};
ghost use Rattle.go_ring.specs.Takes.{TakeIs, IsLongest};

use crate::cursor::Cursor;
use crate::ordered::load_in_turn;
use go_core::Part;
use go_rule::{Ring, Seat};
use go_word::{Edge, decode};

// Reads words from a position on, up to the first that isn't matched or to the end of the room, and puts their entries there.
pub(crate) fn take_run<T: Part>(
    ring: &Ring<T>,
    seat: &mut Seat<T>,
    from: u64,
    out: &mut [Edge],
) -> usize
    requires at { IsAt ring.now.table.shared.table_id seat.old.table_id seat.old.me.0 }
    requires can { CanTakeNext seat.old.me.0 from }
    ensures stays { (seat.new.table_id ≡ seat.old.table_id) × (seat.new.id ≡ seat.old.id) }
    ensures few { result ≤ length out.old }
    ensures rest { (length out.new ≡ length out.old) × (drop result out.new ≡ drop result out.old) }
    ensures takes { TakeIs from (length out.old) (take result out.new) seat.old.me seat.new.me }
    ensures longest { IsLongest ring.now.slots (length out.old) seat.old.me.0 from result }
{
    let mut count = 0;
    let mut cursor = Cursor::new(ring, from);
    while count < out.len() {
        let at = from + count as u64;
        let word = load_in_turn(ring, seat, at, cursor);
        if !cursor.matches(word) {
            return count;
        }
        out[count] = decode(word);
        count += 1;
        cursor = cursor.next(ring, at);
    }
    count
}
