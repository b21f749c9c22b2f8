// The parts of a plain store, and how entries go through them.
ghost use Rattle.std.specs.Prelude.{◌≡◌, ◌+◌, ◌-◌, ◌<◌, ◌++◌, ◌∷◌, [], length, OnOk, OnErr};
ghost use Rattle.go_api.specs.Calls.{MayPut};
ghost use Rattle.go_durable.specs.Journal.{journal_disk, journal_front};
ghost use Rattle.go_plain.specs.Plain.{standing_of, HasSession, IsStore, StaysStore, Flushes, IsOnlyFlushed, IsMovedOut, HasMadeRoom, HasEnded};
ghost use Rattle.go_plain.specs.Plain.{MaySit, pushed};
ghost use Rattle.go_plain.specs.Seats.{seat_at, seats_with};

use crate::front_rows::FrontRows;
use crate::ring::Ring;
use crate::scratch::Scratch;
use crate::seat::{Seat, give_seat, spend};
use crate::views::fronts_of;
use go_api::Stop;
use go_disk::Disk;
use go_durable::{DurableLog, Finished, Flushed, Journal};
use go_shard::{Shard, catch_up};
use go_word::Edge;
use std::alloc::{AllocError, Global};
use std::marker::Model;
use std::mem;
use std::snapshot::Snapshot;

/// A log on a disk, with its newest entries in a ring and its older ones in shards, and what is kept for each session.
#[derive(Drop)]
pub struct Body<D: Disk> {
    // fixed
    pub(crate) alloc: Global,
    pub(crate) vertices: u32,
    pub(crate) first: u64,
    // the log and its entries as they were opened, for clauses alone
    pub(crate) opened: Snapshot<DurableLog<D>>,
    pub(crate) found: Snapshot<Vec<Edge>>,
    // each ring full of entries that was moved to the shards, for clauses alone
    pub(crate) past: Vec<Snapshot<Ring>>,
    // grown by puts
    pub(crate) moved: u64,
    pub(crate) shards: Vec<Shard>,
    pub(crate) ring: Ring,
    pub(crate) journal: Option<Journal<D>>,
    // by session, the first one at the front
    pub(crate) seats: Vec<Seat>,
    // kept from one question to the next
    pub(crate) rows: FrontRows,
    pub(crate) scratch: Scratch,
}

impl<D: Disk> Model for Body<D> {
    ghost use Rattle.std.specs.Prelude.{IsSome};
    ghost use Rattle.go_plain.specs.Plain.{PlainState, IsPlain};
    ghost use Rattle.go_plain.specs.FrontRows.{AreRowsOf};

    ghost Value = { PlainState D };

    ghost use Rattle.go_plain.specs.Fields.{store_of};

    ghost view = { store_of };

    ghost invariant = { λ s. IsSome s.journal × IsPlain D.device (store_of s) s.ring s.shards.items × AreRowsOf (store_of s).log s.rows };
}

impl<D: Disk> Body<D> {
    /// How many entries the log has.
    pub fn head(&self) -> u64
        ensures exact { result ≡ length self.now.log }
    {
        self.moved + self.ring.len() as u64
    }

    /// How many vertices there are.
    pub fn vertices(&self) -> u32
        ensures { result ≡ self.now.origin.vertices }
    {
        self.vertices
    }

    /// How long the log was when it was opened.
    pub fn opened(&self) -> u64
        ensures { result ≡ self.now.origin.first }
    {
        self.first
    }

    /// Does nothing: a contract sees by it what holds of every store.
    pub fn check(&self)
        ensures { IsStore D.device self.now }
    {
        let _ = &self.moved;
    }

    /// What is kept for a session.
    pub fn seat(&self, number: u8) -> Seat
        requires { HasSession self.now number }
        ensures { result ≡ seat_at self.now.seats number }
    {
        self.seats[number as usize - 1]
    }

    /// Keeps something else for a session.
    pub fn set_seat(&mut self, number: u8, seat: Seat)
        requires session { HasSession self.old number }
        requires may { MaySit self.old (seat_at self.old.seats number) seat }
        ensures seat { self.new ≡ record self.old { seats = seats_with self.old.seats number seat } }
        ensures stays { StaysStore D.device self.old self.new }
    {
        give_seat(&mut self.seats, number, seat);
    }

    /// Lends what questions work in.
    pub fn lend(&mut self) -> Scratch
        ensures { self.new ≡ self.old }
    {
        mem::replace(&mut self.scratch, Scratch::new(self.alloc))
    }

    /// Takes back what was lent.
    pub fn take_back(&mut self, scratch: Scratch)
        ensures { self.new ≡ self.old }
    {
        self.scratch = scratch;
    }

    /// Sets a mark behind all entries in the ring.
    pub fn mark(&mut self)
        ensures { self.new ≡ self.old }
    {
        self.ring.mark();
    }

    /// Sees to it that the ring has room for an entry: where it is full, all that it has is moved out.
    pub fn make_room(&mut self) -> Result<(), Stop>
        ensures made { HasMadeRoom self.old self.new result }
        ensures stays { StaysStore D.device self.old self.new }
    {
        if !self.ring.is_full() {
            return Ok(());
        }
        self.move_out()
    }

    /// Puts an entry of a session into the ring, which has room for it.
    pub fn push(&mut self, number: u8, edge: Edge) -> u64
        requires session { HasSession self.old number }
        requires may { MayPut (edge ∷ []) (standing_of D.device self.old number) }
        requires room { length self.old.log < self.old.moved + self.old.room }
        ensures position { result ≡ length self.old.log }
        ensures put { self.new ≡ pushed self.old number edge }
        ensures stays { StaysStore D.device self.old self.new }
    {
        let position = self.head();
        self.ring.push(edge, number);
        spend(&mut self.seats, number);
        position
    }

    /// Moves all entries out of the ring, to the log file and then to the shards.
    pub fn move_out(&mut self) -> Result<(), Stop>
        ensures moved { IsMovedOut self.old self.new result }
        ensures stays { StaysStore D.device self.old self.new }
    {
        if let Err(why) = self.flush() {
            return Err(why);
        }
        match self.archive() {
            Ok(()) => Ok(()),
            Err(_) => Err(Stop::Memory),
        }
    }

    // Appends to the log file what it lacks.
    fn flush(&mut self) -> Result<(), Stop>
        ensures flushes { Flushes result self.old self.new }
        ensures only { IsOnlyFlushed self.old self.new }
        ensures stays { StaysStore D.device self.old self.new }
    {
        let Some(journal) = self.journal.take() else {
            unreachable!()
        };
        let lacking = (journal.front() - self.moved) as usize;
        let Flushed { journal, stop } = journal.flush(&self.ring.entries()[lacking..]);
        match self.journal.replace(journal) {
            None => {}
            Some(_) => unreachable!(),
        }
        match stop {
            None => Ok(()),
            Some(why) => Err(why),
        }
    }

    // Brings the shards up to the end of the log, and empties the ring.
    fn archive(&mut self) -> Result<(), AllocError>
        requires { journal_front self.old.journal ≡ length self.old.log }
        ensures ok { OnOk result (self.new ≡ record self.old { moved = length self.old.log; cuts = self.new.cuts }) }
        ensures err { OnErr result (self.new ≡ record self.old { cuts = self.new.cuts }) }
        ensures stays { StaysStore D.device self.old self.new }
    {
        let head = self.head();
        self.past.reserve(1)?;
        let views = fronts_of(self.alloc, &self.seats)?;
        catch_up(
            self.alloc,
            &mut self.shards,
            self.ring.entries(),
            self.moved,
            &views,
        )?;
        self.past.push_reserved(Snapshot::of(&self.ring));
        self.ring.clear();
        self.moved = head;
        Ok(())
    }

    /// Gives the disk back.
    pub fn into_disk(self) -> D
        ensures { result ≡ journal_disk self.journal }
    {
        let Body { journal, .. } = self;
        let Some(journal) = journal else {
            unreachable!()
        };
        journal.into_disk()
    }

    /// Appends to the log file what it lacks, and gives the disk back.
    pub fn finish(self) -> Finished<D>
        ensures { HasEnded D.device self result }
    {
        let Body {
            journal,
            ring,
            moved,
            ..
        } = self;
        let Some(journal) = journal else {
            unreachable!()
        };
        let lacking = (journal.front() - moved) as usize;
        journal.finish(&ring.entries()[lacking..])
    }
}
