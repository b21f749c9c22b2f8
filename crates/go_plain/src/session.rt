// The handle of one session of a plain store.
ghost use Rattle.std.specs.Prelude.{◌≡◌, ◌∷◌, [], ℕ, IfOk, OnOk};
ghost use Rattle.go_api.specs.Calls.{Puts, Offers, Waits, Compacts, MayPut};
ghost use Rattle.go_api.specs.Standing.{IsSound};
ghost use Rattle.go_plain.specs.Plain.{standing_of, HasSession, IsStore, HandleGoesOn, LooksAt, BusyWhereFull, IsCompacted};
ghost use Rattle.go_plain.specs.Seats.{seat_at};

use crate::body::Body;
#[cfg(test)]
use crate::seat::Seat;
use crate::store::PlainStore;
use go_api::{Offer, Reached, Span, Stop, Store};
use go_disk::Disk;
use go_word::Edge;
use std::marker::Model;

/// A plain store in the hands of one of its sessions.
#[derive(Drop)]
pub struct PlainSession<D: Disk> {
    number: u8,
    body: Box<Body<D>>,
}

impl<D: Disk> Model for PlainSession<D> {
    ghost use Rattle.go_plain.specs.Plain.{HandleState, HasSession};

    ghost Value = { HandleState D };

    ghost view = { λ session. record { number = session.number; store = session.body.value } };

    ghost invariant = { λ session. HasSession session.body.value session.number };
}

impl<D: Disk> PlainStore<D> {
    /// Hands the whole store over as the handle of the session with this number; they count from 1.
    pub fn session(self, number: u8) -> PlainSession<D>
        requires { HasSession self number }
        ensures store { result.store ≡ self }
        ensures number { result.number ≡ number }
        ensures is_store { IsStore D.device result.store }
    {
        self.body.check();
        PlainSession {
            number,
            body: self.body,
        }
    }
}

impl<D: Disk> PlainSession<D> {
    /// Hands the store back.
    pub fn back(self) -> PlainStore<D>
        ensures store { result ≡ self.store }
        ensures is_store { IsStore D.device result }
        ensures session { HasSession result self.number }
    {
        self.body.check();
        PlainStore { body: self.body }
    }

    // What is kept for the session.
    #[cfg(test)]
    pub(crate) fn seat(&self) -> Seat
        ensures { result ≡ seat_at self.now.store.seats self.now.number }
    {
        self.body.seat(self.number)
    }
}

#[cfg(test)]
impl<D: Disk> PlainSession<D> {
    // How many rows of a front are listed.
    pub(crate) fn rows(&self) -> usize {
        self.body.rows.len()
    }
}

impl<D: Disk> Store for PlainSession<D> {
    ghost use Rattle.go_plain.specs.Plain.{standing_of, HandleGoesOn, LooksAt};
    ghost use Rattle.go_plain.specs.GoingOn.{goes_on_same, goes_on_onwards};

    ghost stands = { λ session. standing_of D.device session.store session.number };

    ghost became = { λ old new. HandleGoesOn D.device old new };

    ghost same = { λ session. goes_on_same D.device session };

    ghost onwards = { λ one two three first later. goes_on_onwards D.device one two three first later };

    ghost looked = { λ session asked answer. LooksAt session.store asked answer };

    fn vertices(&self) -> u32 {
        self.body.vertices()
    }

    fn opened(&self) -> u64 {
        self.body.opened()
    }

    fn put(&mut self, edge: Edge) -> Result<u64, Stop> {
        self.body.put(self.number, edge)
    }

    fn put_entries(&mut self, edges: &[Edge]) -> Result<Option<u64>, Stop> {
        self.body.put_entries(self.number, edges)
    }

    fn offer(&mut self, edge: Edge) -> Result<Offer, Stop>
        requires { MayPut (edge ∷ []) (standing_of D.device self.old.store self.old.number) }
        ensures offers { Offers edge result (standing_of D.device self.old.store self.old.number) (standing_of D.device self.new.store self.new.number) }
        ensures sound { IsSound (standing_of D.device self.new.store self.new.number) }
        ensures became { HandleGoesOn D.device self.old self.new }
        ensures busy { BusyWhereFull self.old.store result }
    {
        Ok(self.body.offer(self.number, edge))
    }

    fn view(&mut self, place: u8) -> Result<u64, Stop> {
        Ok(self.body.view(self.number, place))
    }

    fn degree(&mut self, place: u8, vertex: u32) -> Result<u32, Stop> {
        self.body.check();
        match self.body.degree(self.number, place, vertex) {
            Ok(degree) => Ok(degree),
            Err(_) => Err(Stop::Memory),
        }
    }

    fn neighbours(&mut self, place: u8, vertex: u32, out: &mut Vec<u32>) -> Result<(), Stop> {
        self.body.check();
        match self.body.neighbours(self.number, place, vertex, out) {
            Ok(()) => Ok(()),
            Err(_) => Err(Stop::Memory),
        }
    }

    fn drop_view(&mut self, place: u8) {
        self.body.free(self.number, place);
    }

    fn start_stream(&mut self, place: u8) -> Result<u64, Stop> {
        Ok(self.body.start_stream(self.number, place))
    }

    fn update(&mut self, place: u8, most: u32, out: &mut Vec<Edge>) -> Result<Span, Stop> {
        self.body.update(self.number, place, most, out)
    }

    fn close_stream(&mut self, place: u8) {
        self.body.free(self.number, place);
    }

    fn until(&mut self, front: u64) -> Result<Reached, Stop> {
        Ok(self.body.until(self.number, front))
    }

    fn sync(&mut self) -> Result<u64, Stop> {
        self.body.sync(self.number)
    }

    fn compact(&mut self) -> Result<(), Stop>
        ensures compacts { Compacts result (standing_of D.device self.old.store self.old.number) (standing_of D.device self.new.store self.new.number) }
        ensures sound { IsSound (standing_of D.device self.new.store self.new.number) }
        ensures became { HandleGoesOn D.device self.old self.new }
        ensures compacted { OnOk result (IsCompacted self.new.store) }
    {
        self.body.compact(self.number)
    }
}
