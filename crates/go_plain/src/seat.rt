// What a store keeps for a session.
ghost use Rattle.std.specs.Prelude.{◌≡◌, ◌-◌, ◌<◌, ◌≤◌, length, slice_set, slice_index_or, IfOk, map};
ghost use Rattle.go_api.specs.declared.place.Place.TheVariants as held;
ghost use Rattle.go_plain.specs.Seats.{seat_at, seats_with, new_seat};
ghost use Rattle.go_plain.specs.Owners.{IsSession};

use go_api::{PLACES, Place};
use std::alloc::{AllocError, Global};

/// What a store keeps for a session.
#[derive(Clone, Copy)]
pub struct Seat {
    /// How many entries of the log it has seen.
    pub seen: u64,
    /// How many it may yet put.
    pub quota: u64,
    /// What stands at its places.
    pub places: [Place; PLACES],
}

impl Seat {
    // Another one of the same session, which has seen so many entries.
    pub(crate) fn seeing(self, seen: u64) -> Seat
        ensures { result ≡ record self { seen = seen } }
    {
        Seat { seen, ..self }
    }

    // Another one of the same session, with something else at a place.
    pub(crate) fn holding(self, place: u8, held: Place) -> Seat
        requires { place < length self.places }
        ensures { result ≡ record self { places = slice_set self.places place held } }
    {
        let mut places = self.places;
        places[place as usize] = held;
        Seat { places, ..self }
    }
}

// The seats of sessions that may put so many entries, and have seen so many.
pub(crate) fn new_seats(alloc: Global, seen: u64, quotas: &[u64]) -> Result<Vec<Seat>, AllocError>
    ensures { IfOk result (λ seats. seats.items ≡ map (new_seat seen) quotas.now) }
{
    let mut seats = Vec::with_capacity(alloc, quotas.len())?;
    for quota in quotas {
        seats.push(Seat {
            seen,
            quota: *quota,
            places: [Place::Free; PLACES],
        })?;
    }
    Ok(seats)
}

// Gives a session another seat.
pub(crate) fn give_seat(seats: &mut Vec<Seat>, number: u8, seat: Seat)
    requires { IsSession (length seats.old.items) number }
    ensures { seats.new.items ≡ seats_with seats.old.items number seat }
{
    seats[number as usize - 1] = seat;
}

// Takes one entry off what a session may put.
pub(crate) fn spend(seats: &mut Vec<Seat>, number: u8)
    requires session { IsSession (length seats.old.items) number }
    requires some { 1 ≤ (seat_at seats.old.items number).quota }
    ensures { seats.new.items
        ≡ seats_with seats.old.items number (record (seat_at seats.old.items number) { quota = (seat_at seats.old.items number).quota - 1 }) }
{
    spend_one(&mut seats[number as usize - 1]);
}

// Takes one entry off what a session may put, where its seat is.
fn spend_one(seat: &mut Seat)
    requires { 1 ≤ seat.old.quota }
    ensures { seat.new ≡ record seat.old { quota = seat.old.quota - 1 } }
{
    seat.quota -= 1;
}
