// A store in the hands of a session that is a thread.
ghost use Rattle.std.specs.Prelude.{◌≡◌, IfOk, IfErr};
ghost use Rattle.go_live.specs.Handles.{IsNewSeat};
ghost use Rattle.go_live.specs.Live.{HasOpened, HasLeft};

use crate::handle::Handle;
use go_api::{Offer, Reached, Span, Stop, Store};
use go_disk::Disk;
use go_piece::Piece;
use go_rule::{Ring, Seat};
use go_word::Edge;
use std::alloc::Global;
use std::marker::Model;
use std::sync::Wait;

/// A store in the hands of a session that is a thread: a handle of a ring that threads share.
///
/// A call that waits looks at the flag of the ring now and then, and answers why that is raised.
#[derive(Drop)]
pub struct LiveStore<'r, D: Disk, R> {
    rt: &'r R,
    alloc: Global,
    ring: &'r Ring<Piece<D>>,
    handle: Handle<D>,
}

impl<'r, D: Disk, R> Model for LiveStore<'r, D, R> {
    ghost use Rattle.go_live.specs.Handles.{IsHandle};
    ghost use Rattle.go_live.specs.Live.{LiveState};

    ghost Value = { LiveState D };

    ghost view = { λ store. record {
      table = store.ring.now.table.shared.table_id;
      key = store.ring.now.table.shared.key;
      handle = store.handle;
    } };

    ghost invariant = { λ store. IsHandle store.ring.now.table.shared.table_id store.ring.now.table.shared.key store.handle };
}

impl<'r, D: Disk, R> LiveStore<'r, D, R> {
    /// A store by a new seat of a ring, whose first position and number of vertices are these. Where there is no memory for it, the
    /// seat comes back as it was.
    pub fn new(
        rt: &'r R,
        alloc: Global,
        ring: &'r Ring<Piece<D>>,
        seat: Seat<Piece<D>>,
        first: u64,
        vertices: u32,
    ) -> Result<LiveStore<'r, D, R>, Seat<Piece<D>>>
        requires new { IsNewSeat ring.now.table.shared.table_id ring.now.table.shared.key first vertices seat }
        ensures opened { IfOk result (λ store. HasOpened ring.now.table.shared.table_id ring.now.table.shared.key seat store) }
        ensures err { IfErr result (λ back. back ≡ seat) }
    {
        let handle = Handle::new(alloc, ring, seat, first, vertices)?;
        Ok(LiveStore {
            rt,
            alloc,
            ring,
            handle,
        })
    }

    /// Gives the seat back.
    pub fn into_seat(self) -> Seat<Piece<D>>
        ensures seat { result ≡ self.entry.handle.seat }
        ensures left { HasLeft self.entry }
    {
        self.handle.seat
    }
}

impl<D: Disk, R: Wait> Store for LiveStore<'_, D, R> {
    ghost use Rattle.go_live.specs.Live.{state_of, GoesOn};
    ghost use Rattle.go_live.specs.GoingOn.{goes_on_same, goes_on_onwards};

    ghost stands = { λ store. state_of store };

    ghost became = { λ old new. GoesOn old new };

    ghost same = { λ store. goes_on_same store };

    ghost onwards = { λ one two three first later. goes_on_onwards one two three first later };

    ghost looked = { λ store asked answer. Unit {0} };

    fn vertices(&self) -> u32 {
        self.handle.vertices
    }

    fn opened(&self) -> u64 {
        self.handle.first
    }

    fn put(&mut self, edge: Edge) -> Result<u64, Stop> {
        self.handle.put(self.rt, self.ring, edge)
    }

    fn put_entries(&mut self, edges: &[Edge]) -> Result<Option<u64>, Stop> {
        self.handle.put_entries(self.rt, self.ring, edges)
    }

    fn offer(&mut self, edge: Edge) -> Result<Offer, Stop> {
        self.handle.offer(self.rt, self.ring, edge)
    }

    fn view(&mut self, place: u8) -> Result<u64, Stop> {
        self.handle.view(self.rt, self.alloc, self.ring, place)
    }

    fn degree(&mut self, place: u8, vertex: u32) -> Result<u32, Stop> {
        self.handle
            .degree(self.rt, self.alloc, self.ring, place, vertex)
    }

    fn neighbours(&mut self, place: u8, vertex: u32, out: &mut Vec<u32>) -> Result<(), Stop> {
        self.handle
            .neighbours(self.rt, self.alloc, self.ring, place, vertex, out)
    }

    fn drop_view(&mut self, place: u8) {
        self.handle.drop_view(self.rt, self.ring, place);
    }

    fn start_stream(&mut self, place: u8) -> Result<u64, Stop> {
        self.handle.start_stream(self.rt, self.ring, place)
    }

    fn update(&mut self, place: u8, most: u32, out: &mut Vec<Edge>) -> Result<Span, Stop> {
        self.handle.update(self.rt, self.ring, place, most, out)
    }

    fn close_stream(&mut self, place: u8) {
        self.handle.close_stream(self.ring, place);
    }

    fn until(&mut self, front: u64) -> Result<Reached, Stop> {
        self.handle.until(self.ring, front)
    }

    fn sync(&mut self) -> Result<u64, Stop> {
        self.handle.sync(self.rt, self.ring)
    }

    fn compact(&mut self) -> Result<(), Stop> {
        self.handle.compact(self.rt, self.ring)
    }
}
