// The fronts of the views of sessions.
ghost use Rattle.std.specs.Prelude.{◌≡◌, ◌∷◌, ◌++◌, [], IfOk, OnOk};
ghost use Rattle.go_plain.specs.Views.{views_of, IsLeast};
ghost use Rattle.go_plain.specs.Seats.{all_views};

use crate::seat::Seat;
use go_api::Place;
use std::alloc::{AllocError, Global};

/// Gives the fronts of the views of all sessions.
pub fn fronts_of(alloc: Global, seats: &[Seat]) -> Result<Vec<u64>, AllocError>
    ensures { IfOk result (λ fronts. fronts.items ≡ all_views seats.now) }
{
    let mut fronts = Vec::new(alloc);
    for seat in seats {
        add_fronts(&seat.places, &mut fronts)?;
    }
    Ok(fronts)
}

// Adds the fronts of the views at places.
fn add_fronts(places: &[Place], fronts: &mut Vec<u64>) -> Result<(), AllocError>
    ensures { OnOk result (fronts.new.items ≡ fronts.old.items ++ views_of places.now) }
{
    for place in places {
        add_front(place, fronts)?;
    }
    Ok(())
}

// Adds the front of the view at a place, if there is one.
fn add_front(place: &Place, fronts: &mut Vec<u64>) -> Result<(), AllocError>
    ensures { OnOk result (fronts.new.items ≡ fronts.old.items ++ views_of (place.now ∷ [])) }
{
    match place {
        Place::View { front } => fronts.push(*front)?,
        Place::Free | Place::Stream { .. } => {}
    }
    Ok(())
}

/// The least of a bound and some fronts.
pub fn least_of(bound: u64, fronts: &[u64]) -> u64
    ensures { IsLeast bound fronts.now result }
{
    let mut least = bound;
    for front in fronts {
        least = least.min(*front);
    }
    least
}
