// Streams are started, read and given up.
ghost use Rattle.std.specs.Prelude.{◌≡◌, ℕ};
ghost use Rattle.go_api.specs.Calls.{CanStream, Holds, IsPlacedAt, Starts, Updates};
ghost use Rattle.go_api.specs.declared.place.Place.TheVariants as places;
ghost use Rattle.go_live.specs.Going.{ServesOn};
ghost use Rattle.go_live.specs.Handles.{IsHandle, stands_in};

use crate::handle::Handle;
use crate::held::Held;
use crate::refreshing::refresh;
use crate::viewing::{put_at, take_from};
use go_api::{Span, Stop};
use go_disk::Disk;
use go_piece::Piece;
use go_rule::Ring;
use go_stream::LiveStream;
use go_views::copy_up_to;
use go_word::Edge;
use std::sync::Wait;

impl<D: Disk> Handle<D> {
    /// Starts a stream at a free place, and answers where.
    pub(crate) fn start_stream<R: Wait>(
        &mut self,
        rt: &R,
        ring: &Ring<Piece<D>>,
        place: u8,
    ) -> Result<u64, Stop>
        requires is { IsHandle ring.now.table.shared.table_id ring.now.table.shared.key self.old }
        requires free { Holds place places.Free (stands_in ring.now.table.shared.key self.old) }
        ensures is { IsHandle ring.now.table.shared.table_id ring.now.table.shared.key self.new }
        ensures starts { Starts place result (stands_in ring.now.table.shared.key self.old) (stands_in ring.now.table.shared.key self.new) }
        ensures serves { ServesOn self.old self.new }
    {
        let least = self.least();
        let copied = copy_up_to(rt, ring, &mut self.seat, &mut self.words, least);
        refresh(ring, &mut self.seat);
        match copied {
            Ok(copied) => {
                let stream = LiveStream::start(copied.end);
                put_at(&mut self.held, place, Held::Stream { stream });
                self.seen = copied.end;
                Ok(copied.end)
            }
            Err(why) => {
                self.note(why);
                Err(why)
            }
        }
    }

    /// Gives the next entries of the stream at a place into `out`, which is cleared first.
    pub(crate) fn update<R: Wait>(
        &mut self,
        rt: &R,
        ring: &Ring<Piece<D>>,
        place: u8,
        most: u32,
        out: &mut Vec<Edge>,
    ) -> Result<Span, Stop>
        requires is { IsHandle ring.now.table.shared.table_id ring.now.table.shared.key self.old }
        requires can { CanStream place most (stands_in ring.now.table.shared.key self.old) }
        ensures is { IsHandle ring.now.table.shared.table_id ring.now.table.shared.key self.new }
        ensures updates { Updates place most out.new.items result (stands_in ring.now.table.shared.key self.old) (stands_in ring.now.table.shared.key self.new) }
        ensures serves { ServesOn self.old self.new }
    {
        let Held::Stream { mut stream } = self.held[place as usize] else {
            unreachable!()
        };
        let least = self.least();
        let updated = stream.update(rt, ring, &mut self.seat, &mut self.words, most, least, out);
        refresh(ring, &mut self.seat);
        match updated {
            Ok(span) => {
                put_at(&mut self.held, place, Held::Stream { stream });
                self.seen = span.to.max(least);
                Ok(span)
            }
            Err(why) => {
                self.note(why);
                Err(why)
            }
        }
    }

    /// Gives up the stream at a place.
    pub(crate) fn close_stream(&mut self, ring: &Ring<Piece<D>>, place: u8)
        requires is { IsHandle ring.now.table.shared.table_id ring.now.table.shared.key self.old }
        requires held { (cursor : ℕ) × Holds place (places.Stream cursor) (stands_in ring.now.table.shared.key self.old) }
        ensures is { IsHandle ring.now.table.shared.table_id ring.now.table.shared.key self.new }
        ensures frees { IsPlacedAt place places.Free (stands_in ring.now.table.shared.key self.old) (stands_in ring.now.table.shared.key self.new) }
        ensures serves { ServesOn self.old self.new }
    {
        take_from(&mut self.held, place);
        refresh(ring, &mut self.seat);
    }
}
