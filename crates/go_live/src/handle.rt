// A session's handle of a ring, but for the ring itself.
ghost use Rattle.std.specs.Prelude.{◌≡◌, ◌||◌, max, IfOk, IfErr, length, replicate};
ghost use Rattle.go_live.specs.declared.held.Held.TheVariants.{Free};
ghost use Rattle.go_api.specs.declared.place.TheConstants.{PLACES};
ghost use Rattle.go_live.specs.Handles.{is_disk, IsHandle, IsNewSeat, HasBegun};

use crate::held::Held;
use crate::refreshing::refresh;
use go_api::{PLACES, Stop};
use go_disk::Disk;
use go_piece::Piece;
use go_rule::{Ring, Seat};
use std::alloc::{AllocError, Global};

/// A session's handle of a ring, but for the ring itself.
#[derive(Drop)]
pub(crate) struct Handle<D: Disk> {
    // fixed
    /// The ring's first position.
    pub first: u64,
    /// How many vertices there are.
    pub vertices: u32,
    // the session's own
    /// Its seat of the ring.
    pub seat: Seat<Piece<D>>,
    /// A word for each slot, for copies of the ring.
    pub words: Vec<u64>,
    /// A list whose length is asked for.
    pub listed: Vec<u32>,
    /// What stands at its places.
    pub held: Vec<Held>,
    /// How many of the log's first entries it was shown.
    pub seen: u64,
    /// The position behind its last own entry, or the first position.
    pub next: u64,
    /// Whether a fault of the disk was met.
    pub met: bool,
}

// The memory of a handle.
#[derive(Drop)]
struct Room {
    words: Vec<u64>,
    held: Vec<Held>,
}

impl<D: Disk> Handle<D> {
    /// A handle by a new seat of a ring. Where there is no memory for it, the seat comes back.
    pub(crate) fn new(
        alloc: Global,
        ring: &Ring<Piece<D>>,
        seat: Seat<Piece<D>>,
        first: u64,
        vertices: u32,
    ) -> Result<Handle<D>, Seat<Piece<D>>>
        requires new { IsNewSeat ring.now.table.shared.table_id ring.now.table.shared.key first vertices seat }
        ensures is { IfOk result (λ h. IsHandle ring.now.table.shared.table_id ring.now.table.shared.key h) }
        ensures begun { IfOk result (λ h. HasBegun ring.now.table.shared.key seat h) }
        ensures err { IfErr result (λ back. back ≡ seat) }
    {
        let Ok(room) = room_for(alloc, ring.slots as usize) else {
            return Err(seat);
        };
        let mut seat = seat;
        refresh(ring, &mut seat);
        Ok(Handle {
            first,
            vertices,
            seat,
            words: room.words,
            listed: Vec::new(alloc),
            held: room.held,
            seen: first,
            next: first,
            met: false,
        })
    }

    /// A front below which no view or stream begins: neither what was shown nor an own entry is behind it.
    pub(crate) fn least(&self) -> u64
        ensures { result ≡ max self.now.seen self.now.next }
    {
        self.seen.max(self.next)
    }

    /// Keeps that a call was stopped by a fault of the disk.
    pub(crate) fn note(&mut self, why: Stop)
        ensures { self.new ≡ record self.old { met = self.old.met || is_disk why } }
    {
        if let Stop::Disk = why {
            self.met = true;
        }
    }
}

// The memory of a handle of a ring with so many slots.
fn room_for(alloc: Global, slots: usize) -> Result<Room, AllocError>
    ensures words { IfOk result (λ room. length room.words.items ≡ slots) }
    ensures held { IfOk result (λ room. room.held.items ≡ replicate PLACES Free) }
{
    let mut words = Vec::new(alloc);
    words.resize(slots, 0)?;
    let mut held = Vec::with_capacity(alloc, PLACES)?;
    for _ in 0..PLACES {
        held.push(Held::Free)?;
    }
    Ok(Room { words, held })
}
