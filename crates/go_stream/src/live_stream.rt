// A stream of what comes to a log.
ghost use Rattle.std.specs.Prelude.{◌≡◌, ◌<◌, ◌≤◌, ◌^◌, length};
ghost use Rattle.go_word.specs.declared.word.TheConstants.{ID_LIMIT};
ghost use Rattle.go_rule.specs.Steps.{IsAt};
ghost use Rattle.go_rule.specs.Views.{frame_of};
ghost use Rattle.go_stream.specs.Updates.{cursor_after, Updates};

use crate::copying::copy_until;
use crate::filing::read_file;
use crate::wanted::Wanted;
use crate::words::add_words;
use go_api::{Span, Stop};
use go_disk::Disk;
use go_piece::Piece;
use go_rule::{Ring, Seat};
use go_word::Edge;
use std::sync::Wait;

/// A stream of what comes to a log: where it stands.
#[derive(Clone, Copy, Debug, PartialEq, Eq)]
pub struct LiveStream {
    /// The position of the entry that comes next.
    pub(crate) cursor: u64,
}

impl LiveStream {
    /// A stream that gives the entries from a position on.
    pub fn start(cursor: u64) -> LiveStream
        ensures { result.cursor ≡ cursor }
    {
        LiveStream { cursor }
    }

    /// The position of the entry that comes next.
    pub fn cursor(&self) -> u64
        ensures { result ≡ self.now.cursor }
    {
        self.cursor
    }

    /// Gives the entries that come next into `out`, which is cleared first: so many at most, and none where none have come. It waits until
    /// the log has come to the floor.
    ///
    /// Entries that are in the ring come from there, by way of a buffer of as many words; those that left it come from the log's file. Where
    /// it is stopped the stream stands where it stood, and nothing is claimed of `out`.
    pub fn update<D: Disk, R: Wait>(
        &mut self,
        rt: &R,
        ring: &Ring<Piece<D>>,
        seat: &mut Seat<Piece<D>>,
        buf: &mut [u64],
        max: u32,
        floor: u64,
        out: &mut Vec<Edge>,
    ) -> Result<Span, Stop>
        requires at { IsAt ring.now.table.shared.table_id seat.old.table_id seat.old.me.0 }
        requires room { length buf.old ≡ ring.now.slots }
        requires seen { self.old.cursor ≤ seat.old.me.0.core.seen }
        requires some { 1 ≤ max }
        requires shards { ring.now.shards < 2 ^ 32 }
        requires ids { seat.old.me.0.about.vertices ≤ ID_LIMIT }
        ensures stays { (seat.new.table_id ≡ seat.old.table_id) × (seat.new.id ≡ seat.old.id) }
        ensures hand { seat.new.me.1 ≡ seat.old.me.1 }
        ensures long { length buf.new ≡ length buf.old }
        ensures cursor { self.new.cursor ≡ cursor_after self.old.cursor result }
        ensures updates { Updates D.device (frame_of ring.now.table.shared.key) ring.now.table.shared.table_id.slots
            (record { from = self.old.cursor; most = max; floor = floor }) result seat.old.me seat.new.me out.new.items }
    {
        out.clear();
        let wanted = Wanted {
            from: self.cursor,
            most: max,
            floor,
        };
        let copied = match copy_until(rt, ring, seat, buf, wanted) {
            Ok(copied) => copied,
            Err(why) => return Err(why),
        };
        let span = wanted.span(copied.end);
        let left = copied.archived.min(copied.durable);
        let middle = span.to.min(span.from.max(left));
        let Ok(()) = out.reserve((span.to - span.from) as usize) else {
            return Err(Stop::Memory);
        };
        if let Err(why) = read_file(rt, ring, seat, span.from, middle, out) {
            return Err(why);
        }
        let Ok(()) = add_words(buf, middle, span.to, out) else {
            return Err(Stop::Memory);
        };
        self.cursor = span.to;
        Ok(span)
    }
}
