// Entries are put: a claim is made, and its words are stored as soon as there is room, or it is given up.
ghost use Rattle.std.specs.Prelude.{◌≡◌, ◌∷◌, [], ◌<◌, ◌≤◌, length, take, All, MatchResult};
ghost use Rattle.go_word.specs.Word.{IsStorable};
ghost use Rattle.go_core.specs.declared.entry.Entry.{Entry};
ghost use Rattle.go_api.specs.Calls.{MayPut, Puts, PutsEntries, Offers};
ghost use Rattle.go_rule.specs.Rule.{IsBelow};
ghost use Rattle.go_rule.specs.Steps.{IsAt};
ghost use Rattle.go_ring.specs.Claims.{entries_in};
ghost use Rattle.go_live.specs.Going.{ServesOn};
ghost use Rattle.go_live.specs.Handles.{IsHandle, stands_in};
ghost use Rattle.go_live.specs.Putting.{IsPlaced, IsGivenUp, IsFilled, IsLetGo, ArePutFrom, ArePutStopped};

use crate::handle::Handle;
use crate::refreshing::refresh;
use go_api::{Offer, Stop};
use go_core::Part;
use go_disk::Disk;
use go_piece::Piece;
use go_ring::{Claim, Fill, RingCalls, Room};
use go_rule::{Ring, Seat};
use go_word::Edge;
use std::sync::Wait;
use std::thread;

// The most entries of one claim.
const CLAIM_MOST: usize = 64;

impl<D: Disk> Handle<D> {
    /// Puts an entry, and answers its position.
    pub(crate) fn put<R: Wait>(
        &mut self,
        rt: &R,
        ring: &Ring<Piece<D>>,
        edge: Edge,
    ) -> Result<u64, Stop>
        requires is { IsHandle ring.now.table.shared.table_id ring.now.table.shared.key self.old }
        requires may { MayPut (edge ∷ []) (stands_in ring.now.table.shared.key self.old) }
        ensures is { IsHandle ring.now.table.shared.table_id ring.now.table.shared.key self.new }
        ensures puts { Puts edge result (stands_in ring.now.table.shared.key self.old) (stands_in ring.now.table.shared.key self.new) }
        ensures serves { ServesOn self.old self.new }
    {
        self.put_claim(rt, ring, &[edge])
    }

    /// Puts entries in their order, by claims of as many as one may have, and answers the position of the last one.
    pub(crate) fn put_entries<R: Wait>(
        &mut self,
        rt: &R,
        ring: &Ring<Piece<D>>,
        edges: &[Edge],
    ) -> Result<Option<u64>, Stop>
        requires is { IsHandle ring.now.table.shared.table_id ring.now.table.shared.key self.old }
        requires may { MayPut edges.now (stands_in ring.now.table.shared.key self.old) }
        ensures is { IsHandle ring.now.table.shared.table_id ring.now.table.shared.key self.new }
        ensures puts { PutsEntries edges.now result (stands_in ring.now.table.shared.key self.old) (stands_in ring.now.table.shared.key self.new) }
        ensures serves { ServesOn self.old self.new }
    {
        let mut last = None;
        let mut done = 0;
        while done < edges.len() {
            let count = CLAIM_MOST.min(edges.len() - done);
            match self.put_claim(rt, ring, &edges[done..done + count]) {
                Ok(first) => last = Some(first + count as u64 - 1),
                Err(why) => return Err(why),
            }
            done += count;
        }
        Ok(last)
    }

    /// Puts an entry where the ring has room for it, and else tells how full it is.
    pub(crate) fn offer<R: Wait>(
        &mut self,
        rt: &R,
        ring: &Ring<Piece<D>>,
        edge: Edge,
    ) -> Result<Offer, Stop>
        requires is { IsHandle ring.now.table.shared.table_id ring.now.table.shared.key self.old }
        requires may { MayPut (edge ∷ []) (stands_in ring.now.table.shared.key self.old) }
        ensures is { IsHandle ring.now.table.shared.table_id ring.now.table.shared.key self.new }
        ensures offers { Offers edge result (stands_in ring.now.table.shared.key self.old) (stands_in ring.now.table.shared.key self.new) }
        ensures serves { ServesOn self.old self.new }
    {
        let room = ring.room(&mut self.seat);
        refresh(ring, &mut self.seat);
        match room {
            Room::Full { head, released } => Ok(Offer::Busy { head, released }),
            Room::Free => match self.put(rt, ring, edge) {
                Ok(position) => Ok(Offer::At { position }),
                Err(why) => Err(why),
            },
        }
    }

    // Puts 1 to 64 entries in a row, and answers the position of the first one.
    fn put_claim<R: Wait>(
        &mut self,
        rt: &R,
        ring: &Ring<Piece<D>>,
        edges: &[Edge],
    ) -> Result<u64, Stop>
        requires is { IsHandle ring.now.table.shared.table_id ring.now.table.shared.key self.old }
        requires some { 1 ≤ length edges.now }
        requires few { length edges.now ≤ 64 }
        requires may { MayPut edges.now (stands_in ring.now.table.shared.key self.old) }
        ensures is { IsHandle ring.now.table.shared.table_id ring.now.table.shared.key self.new }
        ensures puts { MatchResult result
            (λ first. ArePutFrom edges.now first (stands_in ring.now.table.shared.key self.old) (stands_in ring.now.table.shared.key self.new))
            (λ why. ArePutStopped edges.now why (stands_in ring.now.table.shared.key self.old) (stands_in ring.now.table.shared.key self.new)) }
        ensures serves { ServesOn self.old self.new }
    {
        let placed = place(rt, ring, &mut self.seat, edges);
        refresh(ring, &mut self.seat);
        match placed {
            Ok(first) => {
                self.next = first + edges.len() as u64;
                Ok(first)
            }
            Err(why) => {
                self.note(why);
                Err(why)
            }
        }
    }
}

// Claims positions for entries and stores their words as soon as there is room, or gives them up where the flag is raised.
fn place<T: Part, R: Wait>(
    rt: &R,
    ring: &Ring<T>,
    seat: &mut Seat<T>,
    edges: &[Edge],
) -> Result<u64, Stop>
    requires at { IsAt ring.now.table.shared.table_id seat.old.table_id seat.old.me.0 }
    requires some { 1 ≤ length edges.now }
    requires few { length edges.now ≤ 64 }
    requires storable { All IsStorable edges.now }
    requires below { All (IsBelow ring.now.table.shared.key.layout.vertices) edges.now }
    requires quota { length edges.now ≤ seat.old.me.0.share.quota }
    requires pending { seat.old.me.0.core.pending ≡ [] }
    requires own { All (λ (x : Entry). x.at < seat.old.me.0.core.head) seat.old.me.0.core.own }
    ensures stays { (seat.new.table_id ≡ seat.old.table_id) × (seat.new.id ≡ seat.old.id) }
    ensures hand { seat.new.me.1 ≡ seat.old.me.1 }
    ensures places { MatchResult result
        (λ first. IsPlaced edges.now first seat.old.me.0 seat.new.me.0)
        (λ _. IsGivenUp edges.now seat.old.me.0 seat.new.me.0) }
{
    let claim = ring.claim(seat, edges);
    settle(rt, ring, seat, claim)
}

// Stores the words of a claim that is all that the seat owes, or gives it up.
fn settle<T: Part, R: Wait>(
    rt: &R,
    ring: &Ring<T>,
    seat: &mut Seat<T>,
    claim: Claim,
) -> Result<u64, Stop>
    requires at { IsAt ring.now.table.shared.table_id seat.old.table_id seat.old.me.0 }
    requires owed { seat.old.me.0.core.pending ≡ entries_in claim }
    requires storable { All IsStorable (take claim.len claim.edges) }
    ensures stays { (seat.new.table_id ≡ seat.old.table_id) × (seat.new.id ≡ seat.old.id) }
    ensures hand { seat.new.me.1 ≡ seat.old.me.1 }
    ensures settles { MatchResult result
        (λ first. (first ≡ claim.first) × IsFilled (entries_in claim) seat.old.me.0 seat.new.me.0)
        (λ _. IsLetGo (entries_in claim) seat.old.me.0 seat.new.me.0) }
{
    let mut held = claim;
    for _ in rt.forever() {
        match ring.fill(seat, held) {
            Fill::Done { position } => return Ok(position),
            Fill::Held { claim, released: _ } => {
                if let Some(why) = ring.flag(seat) {
                    ring.abandon(seat, claim);
                    return Err(why);
                }
                held = claim;
                thread::yield_now();
            }
        }
    }
    unreachable!()
}
