// Putting entries into a plain store.
ghost use Rattle.std.specs.Prelude.{◌≡◌, ◌∷◌, [], Ok};
ghost use Rattle.go_api.specs.Calls.{MayPut, Puts, PutsEntries, Offers};
ghost use Rattle.go_api.specs.Standing.{IsSound};
ghost use Rattle.go_plain.specs.Plain.{standing_of, HasSession, StaysStore, GoesOnBy, BusyWhereFull};

use crate::body::Body;
use go_api::{Offer, Stop};
use go_disk::Disk;
use go_word::Edge;

impl<D: Disk> Body<D> {
    /// Puts an entry into the ring; where it is full, all that it has is moved out first.
    pub fn put(&mut self, number: u8, edge: Edge) -> Result<u64, Stop>
        requires session { HasSession self.old number }
        requires may { MayPut (edge ∷ []) (standing_of D.device self.old number) }
        ensures stays { StaysStore D.device self.old self.new }
        ensures puts { Puts edge result (standing_of D.device self.old number) (standing_of D.device self.new number) }
        ensures sound { IsSound (standing_of D.device self.new number) }
        ensures became { GoesOnBy D.device number self.old self.new }
    {
        if let Err(why) = self.make_room() {
            return Err(why);
        }
        Ok(self.push(number, edge))
    }

    /// Puts entries in their order, and answers the position of the last one.
    pub fn put_entries(&mut self, number: u8, edges: &[Edge]) -> Result<Option<u64>, Stop>
        requires session { HasSession self.old number }
        requires may { MayPut edges.now (standing_of D.device self.old number) }
        ensures puts { PutsEntries edges.now result (standing_of D.device self.old number) (standing_of D.device self.new number) }
        ensures sound { IsSound (standing_of D.device self.new number) }
        ensures became { GoesOnBy D.device number self.old self.new }
    {
        self.check();
        let mut last = None;
        for edge in edges {
            match self.put(number, *edge) {
                Ok(position) => last = Some(position),
                Err(why) => return Err(why),
            }
        }
        Ok(last)
    }

    /// Puts an entry into the ring where that isn't full, and else answers how far the log and what left the ring have come.
    pub fn offer(&mut self, number: u8, edge: Edge) -> Offer
        requires session { HasSession self.old number }
        requires may { MayPut (edge ∷ []) (standing_of D.device self.old number) }
        ensures offers { Offers edge (Ok result) (standing_of D.device self.old number) (standing_of D.device self.new number) }
        ensures sound { IsSound (standing_of D.device self.new number) }
        ensures became { GoesOnBy D.device number self.old self.new }
        ensures busy { BusyWhereFull self.old (Ok result) }
    {
        self.check();
        if self.ring.is_full() {
            return Offer::Busy {
                head: self.head(),
                released: self.moved,
            };
        }
        Offer::At {
            position: self.push(number, edge),
        }
    }
}
