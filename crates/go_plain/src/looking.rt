// Looking at the log of a plain store, and what a session keeps at its places.
ghost use Rattle.std.specs.Prelude.{◌≡◌, ◌<◌, ℕ, Ok, OnOk, length};
ghost use Rattle.go_api.specs.Calls.{Holds, Views, IsPlacedAt, Starts, Waits, Syncs, Compacts};
ghost use Rattle.go_api.specs.Standing.{IsSound, ShowsUpTo};
ghost use Rattle.go_api.specs.declared.place.Place.{Place as Held};
ghost use Rattle.go_api.specs.declared.place.Place.TheVariants as places;
ghost use Rattle.go_plain.specs.Seats.{seat_at};
ghost use Rattle.go_plain.specs.Plain.{standing_of, HasSession, StaysStore, GoesOnBy, LooksAt, IsCompacted, kept_at, seen_by};

use crate::body::Body;
use crate::views::{fronts_of, least_of};
use go_api::{Place, Reached, Stop};
use go_disk::Disk;
use go_shard::compact_all;
use std::alloc::AllocError;

impl<D: Disk> Body<D> {
    /// Keeps a view of the log as it stands at a place of a session, and answers its front.
    pub fn view(&mut self, number: u8, place: u8) -> u64
        requires session { HasSession self.old number }
        requires free { Holds place places.Free (standing_of D.device self.old number) }
        ensures views { Views place (Ok result) (standing_of D.device self.old number) (standing_of D.device self.new number) }
        ensures sound { IsSound (standing_of D.device self.new number) }
        ensures became { GoesOnBy D.device number self.old self.new }
    {
        self.check();
        let front = self.head();
        self.keep(number, place, Place::View { front });
        self.mark();
        front
    }

    /// Frees a place of a session.
    pub fn free(&mut self, number: u8, place: u8)
        requires session { HasSession self.old number }
        requires held { (it : Held) × Holds place it (standing_of D.device self.old number) }
        ensures frees { IsPlacedAt place places.Free (standing_of D.device self.old number) (standing_of D.device self.new number) }
        ensures sound { IsSound (standing_of D.device self.new number) }
        ensures became { GoesOnBy D.device number self.old self.new }
    {
        self.check();
        let older = self.seat(number);
        let seat = older.holding(place, Place::Free);
        self.set_seat(number, seat);
        self.forget_rows(older.places[place as usize]);
    }

    /// Starts a stream at a place of a session, behind all entries, and answers where.
    pub fn start_stream(&mut self, number: u8, place: u8) -> u64
        requires session { HasSession self.old number }
        requires free { Holds place places.Free (standing_of D.device self.old number) }
        ensures starts { Starts place (Ok result) (standing_of D.device self.old number) (standing_of D.device self.new number) }
        ensures sound { IsSound (standing_of D.device self.new number) }
        ensures became { GoesOnBy D.device number self.old self.new }
    {
        self.check();
        let cursor = self.head();
        self.keep(number, place, Place::Stream { cursor });
        cursor
    }

    /// Whether the log has come to a front.
    pub fn until(&mut self, number: u8, front: u64) -> Reached
        requires session { HasSession self.old number }
        ensures waits { Waits front (Ok result) (standing_of D.device self.old number) (standing_of D.device self.new number) }
        ensures looked { LooksAt self.old front result }
        ensures sound { IsSound (standing_of D.device self.new number) }
        ensures became { GoesOnBy D.device number self.old self.new }
    {
        self.check();
        let seen = self.look(number);
        if front <= seen {
            Reached::Yes { front }
        } else {
            Reached::NotYet { seen }
        }
    }

    /// Moves all entries out of the ring, so that they are durable, and answers how many entries the log has.
    pub fn sync(&mut self, number: u8) -> Result<u64, Stop>
        requires session { HasSession self.old number }
        ensures syncs { Syncs result (standing_of D.device self.old number) (standing_of D.device self.new number) }
        ensures sound { IsSound (standing_of D.device self.new number) }
        ensures became { GoesOnBy D.device number self.old self.new }
    {
        if let Err(why) = self.move_out() {
            return Err(why);
        }
        Ok(self.look(number))
    }

    /// Moves all entries out of the ring, and compacts each shard as far as the views let it.
    pub fn compact(&mut self, number: u8) -> Result<(), Stop>
        requires session { HasSession self.old number }
        ensures compacts { Compacts result (standing_of D.device self.old number) (standing_of D.device self.new number) }
        ensures sound { IsSound (standing_of D.device self.new number) }
        ensures became { GoesOnBy D.device number self.old self.new }
        ensures compacted { OnOk result (IsCompacted self.new) }
    {
        if let Err(why) = self.move_out() {
            return Err(why);
        }
        match self.compact_shards() {
            Ok(()) => Ok(()),
            Err(_) => Err(Stop::Memory),
        }
    }

    // A session sees the whole log, and is told how many entries it has.
    fn look(&mut self, number: u8) -> u64
        requires session { HasSession self.old number }
        ensures head { result ≡ length self.old.log }
        ensures stays { StaysStore D.device self.old self.new }
        ensures seen { self.new ≡ seen_by self.old number }
    {
        self.check();
        let seen = self.head();
        let seat = self.seat(number).seeing(seen);
        self.set_seat(number, seat);
        seen
    }

    // Keeps something at a place of a session, which sees the whole log.
    pub(crate) fn keep(&mut self, number: u8, place: u8, held: Place)
        requires session { HasSession self.old number }
        requires place { place < length (seat_at self.old.seats number).places }
        requires shows { ShowsUpTo (length self.old.log) held }
        requires views { (n : ℕ) → held ≡ places.View n → length self.old.log ≡ n }
        ensures kept { self.new ≡ kept_at self.old number place held }
        ensures stays { StaysStore D.device self.old self.new }
    {
        self.check();
        let seen = self.head();
        let seat = self.seat(number).seeing(seen).holding(place, held);
        self.set_seat(number, seat);
    }

    // Compacts each shard up to the least front of a view, or where there is none up to the end of the log, where all shards are.
    fn compact_shards(&mut self) -> Result<(), AllocError>
        requires { self.old.moved ≡ length self.old.log }
        ensures same { self.new ≡ record self.old { cuts = self.new.cuts } }
        ensures stays { StaysStore D.device self.old self.new }
        ensures compacted { OnOk result (IsCompacted self.new) }
    {
        let fronts = fronts_of(self.alloc, &self.seats)?;
        let limit = least_of(self.moved, &fronts);
        compact_all(&mut self.shards, limit)
    }
}
