// Words are copied ahead of their turn.
ghost use Rattle.std.specs.Prelude.{◌≡◌, length};
ghost use Rattle.go_rule.specs.Steps.{IsAt};
ghost use Rattle.go_rule.specs.Views.{frame_of};
ghost use Rattle.go_ring.specs.Copies.{Copies};
ghost use Rattle.go_ring.specs.Reads.{Held, CanCopy, Reads, StopsFor};

use crate::ahead::load_ahead;
use crate::copied::{Copied, CopyStop};
use crate::cursor::Cursor;
use go_core::Part;
use go_rule::{Ring, Seat, load_archived, load_durable, load_ending, load_head};

// Copies words from a position on, up to another or to the first that isn't matched, and gives where it ended.
fn copy_words<T: Part>(
    ring: &Ring<T>,
    seat: &mut Seat<T>,
    buf: &mut [u64],
    from: u64,
    to: u64,
) -> u64
    requires at { IsAt ring.now.table.shared.table_id seat.old.table_id seat.old.me.0 }
    requires room { length buf.old ≡ ring.now.slots }
    requires can { CanCopy ring.now.slots seat.old.me.0.core from to }
    requires held { Held ring.now.slots seat.old.me.0.core buf.old from }
    ensures stays { (seat.new.table_id ≡ seat.old.table_id) × (seat.new.id ≡ seat.old.id) }
    ensures long { length buf.new ≡ length buf.old }
    ensures hand { seat.new.me.1 ≡ seat.old.me.1 }
    ensures reads { Reads ring.now.slots from to seat.old.me.0 seat.new.me.0 buf.new result }
{
    let mut next = from;
    let mut cursor = Cursor::new(ring, from);
    while next < to {
        let word = load_ahead(ring, seat, next, cursor);
        if !cursor.matches(word) {
            return next;
        }
        buf[(ring.slots - cursor.left) as usize] = word;
        cursor = cursor.next(ring, next);
        next += 1;
    }
    next
}

// Why a copy ended at a position.
fn stop_at(end: u64, head: u64, from: u64, limit: u64) -> CopyStop
    ensures { StopsFor end head from limit result }
{
    if end >= limit {
        CopyStop::Window { from }
    } else if end == head {
        CopyStop::Head { head }
    } else {
        CopyStop::Unwritten { position: end }
    }
}

// Copies words until all are there from the archived front on, as it is after them, or a lap is gone by.
pub(crate) fn copy_ring<T: Part>(ring: &Ring<T>, seat: &mut Seat<T>, buf: &mut [u64]) -> Copied
    requires at { IsAt ring.now.table.shared.table_id seat.old.table_id seat.old.me.0 }
    requires room { length buf.old ≡ ring.now.slots }
    ensures stays { (seat.new.table_id ≡ seat.old.table_id) × (seat.new.id ≡ seat.old.id) }
    ensures long { length buf.new ≡ length buf.old }
    ensures copies { Copies T.state_of (frame_of ring.now.table.shared.key) ring.now.table.shared.table_id.slots seat.old.me seat.new.me result buf.new }
{
    // A copy begins where the archived front is loaded right after the length, which has to be known again once it is.
    load_head(ring, seat);
    let mut archived = load_archived(ring, seat);
    let mut head = load_head(ring, seat);
    let first_durable = load_durable(ring, seat);
    let from = archived.min(first_durable);
    let limit = from + ring.slots;
    let mut next = from;
    loop {
        next = copy_words(ring, seat, buf, next, head.min(limit));
        archived = load_archived(ring, seat);
        if archived <= next || limit <= archived {
            break;
        }
        // What is archived by now was written, and what is released was overwritten: neither has to be waited for.
        head = load_head(ring, seat);
        let released = archived.min(load_durable(ring, seat));
        next = next.max(released);
    }
    let end = next.max(archived);
    let durable = load_ending(ring, seat, end);
    Copied {
        archived,
        durable,
        end,
        stop: stop_at(end, head, from, limit),
    }
}
