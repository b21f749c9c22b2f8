// Reading the entries of a stream of a plain store.
ghost use Rattle.std.specs.Prelude.{◌≡◌, ◌++◌, ◌≤◌, length, take, drop, true, Err, OnOk};
ghost use Rattle.go_api.specs.Calls.{CanStream, Updates};
ghost use Rattle.go_api.specs.Standing.{IsSound};
ghost use Rattle.go_api.specs.declared.stop.Stop.TheVariants as stops;
ghost use Rattle.go_durable.specs.Journal.{is_spent};
ghost use Rattle.go_plain.specs.Plain.{standing_of, HasSession, GoesOnBy, StaysStore, IsOnlyFlushed, AddsLog, ReadsLog};

use crate::body::Body;
use go_api::{Place, Span, Stop};
use go_disk::Disk;
use go_durable::Ranged;
use go_word::Edge;
use std::alloc::AllocError;

impl<D: Disk> Body<D> {
    /// Gives the next entries of the stream at a place of a session into `out`, so many at most.
    pub fn update(
        &mut self,
        number: u8,
        place: u8,
        most: u32,
        out: &mut Vec<Edge>,
    ) -> Result<Span, Stop>
        requires session { HasSession self.old number }
        requires can { CanStream place most (standing_of D.device self.old number) }
        ensures updates { Updates place most out.new.items result (standing_of D.device self.old number) (standing_of D.device self.new number) }
        ensures sound { IsSound (standing_of D.device self.new number) }
        ensures became { GoesOnBy D.device number self.old self.new }
    {
        self.check();
        let Place::Stream { cursor } = self.seat(number).places[place as usize] else {
            unreachable!()
        };
        let head = self.head();
        let to = (cursor + u64::from(most)).min(head);
        if let Err(why) = self.read(cursor, to, out) {
            return Err(why);
        }
        self.keep(number, place, Place::Stream { cursor: to });
        Ok(Span { from: cursor, to })
    }

    // Gives the entries of the log from one place up to another into `out`: those that left the ring come from the log file.
    fn read(&mut self, from: u64, to: u64, out: &mut Vec<Edge>) -> Result<(), Stop>
        requires order { from ≤ to }
        requires within { to ≤ length self.old.log }
        ensures only { IsOnlyFlushed self.old self.new }
        ensures reads { ReadsLog D.device self.new from to out.new.items result }
        ensures stays { StaysStore D.device self.old self.new }
    {
        self.check();
        out.clear();
        let middle = to.min(from.max(self.moved));
        let Ok(()) = out.reserve((to - from) as usize) else {
            return Err(Stop::Memory);
        };
        if from < middle {
            if let Err(why) = self.read_file(from, middle, out) {
                return Err(why);
            }
        }
        if middle < to {
            let Ok(()) = self.read_ring(middle, to, out) else {
                return Err(Stop::Memory);
            };
        }
        Ok(())
    }

    // Adds entries that left the ring, from the log file.
    fn read_file(&mut self, from: u64, to: u64, out: &mut Vec<Edge>) -> Result<(), Stop>
        requires order { from ≤ to }
        requires within { to ≤ self.old.moved }
        ensures only { IsOnlyFlushed self.old self.new }
        ensures adds { OnOk result (AddsLog D.device self.new from to out.old.items out.new.items) }
        ensures met { result ≡ Err stops.Disk → is_spent self.new.journal ≡ true }
        ensures stays { StaysStore D.device self.old self.new }
    {
        let Some(journal) = self.journal.take() else {
            unreachable!()
        };
        let Ranged { journal, stop } = journal.read_range(from, to, out);
        match self.journal.replace(journal) {
            None => {}
            Some(_) => unreachable!(),
        }
        match stop {
            None => Ok(()),
            Some(why) => Err(why),
        }
    }

    // Adds entries that are in the ring.
    fn read_ring(&self, from: u64, to: u64, out: &mut Vec<Edge>) -> Result<(), AllocError>
        requires order { from ≤ to }
        requires from { self.now.moved ≤ from }
        requires within { to ≤ length self.now.log }
        ensures adds { OnOk result (out.new.items ≡ out.old.items ++ drop from (take to self.now.log)) }
    {
        let entries = self.ring.entries();
        let first = (from - self.moved) as usize;
        out.extend_from_slice(&entries[first..(to - self.moved) as usize])?;
        Ok(())
    }
}
