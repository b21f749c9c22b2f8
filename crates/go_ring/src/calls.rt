// The calls of a ring.
ghost use Rattle.std.specs.Prelude.{◌≡◌, ◌+◌, ◌-◌, ◌^◌, ◌<◌, ◌≤◌, ℕ, min, true, length, take, drop, All, AllPairs, Contains, []};
ghost use Rattle.atomic_table.specs.Seated.{TableId};
ghost use Rattle.atomic_table.specs.Table.{step, Me};
ghost use mathlib.Core.Option.{none};
ghost use Rattle.go_word.specs.Word.{IsStorable};
ghost use Rattle.go_rule.specs.declared.layout.Key.{Key as RingKey};
ghost use Rattle.go_rule.specs.Meaning.{meaning};
ghost use Rattle.go_rule.specs.Closing.{IsClosed};
ghost use Rattle.go_rule.specs.Rule.{IsBelow};
ghost use Rattle.go_rule.specs.Views.{frame_of, sharing, shared, joining_seat, claiming, with_abandoned};
ghost use Rattle.go_rule.specs.Steps.{IsAt, LoadsArchived, LoadsDurable, LoadsFlag};
ghost use Rattle.go_rule.specs.Steps.{Claims, StoresFlag, StoresArchived, StoresDurable, CanTakeNext, CanArchiveTo, CanFlushTo};
ghost use Rattle.go_core.specs.View.{numbered};
ghost use Rattle.go_ring.specs.Claims.{entries_in};
ghost use Rattle.go_ring.specs.Takes.{TakeIs, IsLongest};
ghost use Rattle.go_ring.specs.Calls.{cause_of, flag_of, Looks, RoomIs, FillIs, for_each};
ghost use Rattle.go_ring.specs.Copies.{Copies};

use crate::claim::{Claim, Fill};
use crate::copied::Copied;
use crate::room::Room;
use go_api::Stop;
use go_core::Part;
use go_rule::{Closed, Seat};
use go_word::Edge;

/// What threads do with a ring that they share, each by a seat of its own.
pub trait RingCalls<T: Part> {
    /// Which table it is.
    ghost table: { Self → TableId };

    /// How it was made.
    ghost key: { Self → RingKey T };

    /// Splits a new seat off, which gets so much of the quota and of the lot.
    fn split(&self, seat: &mut Seat<T>, quota: u64, lot: u64) -> Seat<T>
        requires at { IsAt (table self.now) seat.old.table_id seat.old.me.0 }
        requires quota { quota ≤ seat.old.me.0.share.quota }
        requires some { 1 ≤ lot }
        requires lot { lot < seat.old.me.0.share.lot }
        ensures stays { (seat.new.table_id ≡ seat.old.table_id) × (seat.new.id ≡ seat.old.id) × (result.table_id ≡ seat.old.table_id) }
        ensures shares { seat.new.me ≡ (sharing quota lot seat.old.me.0, seat.old.me.1) }
        ensures new { result.me ≡ (shared quota lot seat.old.me.0, []) };

    /// Joins another seat in, which owes no word and has no part in its hand.
    fn join(&self, seat: &mut Seat<T>, other: Seat<T>)
        requires at { IsAt (table self.now) seat.old.table_id seat.old.me.0 }
        requires other_at { IsAt (table self.now) other.table_id other.me.0 }
        requires pending { other.me.0.core.pending ≡ [] }
        requires notes { other.me.0.stake.notes ≡ [] }
        requires slots { other.me.1 ≡ [] }
        ensures stays { (seat.new.table_id ≡ seat.old.table_id) × (seat.new.id ≡ seat.old.id) }
        ensures joins { seat.new.me ≡ (joining_seat seat.old.me.0 other.me.0, seat.old.me.1) };

    /// Whether there is room for a claim, by loads of the length and then of both fronts.
    fn room(&self, seat: &mut Seat<T>) -> Room
        requires at { IsAt (table self.now) seat.old.table_id seat.old.me.0 }
        ensures stays { (seat.new.table_id ≡ seat.old.table_id) × (seat.new.id ≡ seat.old.id) }
        ensures looks { (head : ℕ) × (released : ℕ)
            × Looks T.state_of (frame_of (key self.now)) (table self.now).slots seat.old.me head released seat.new.me
            × RoomIs (key self.now).layout.ring head released result };

    /// Claims positions for 1 to 64 edges, which the seat owes from then on. The claim has to be filled or abandoned.
    fn claim(&self, seat: &mut Seat<T>, edges: &[Edge]) -> Claim
        requires at { IsAt (table self.now) seat.old.table_id seat.old.me.0 }
        requires some { 1 ≤ length edges.now }
        requires few { length edges.now ≤ 64 }
        requires storable { All IsStorable edges.now }
        requires below { All (IsBelow (key self.now).layout.vertices) edges.now }
        requires quota { length edges.now ≤ seat.old.me.0.share.quota }
        ensures stays { (seat.new.table_id ≡ seat.old.table_id) × (seat.new.id ≡ seat.old.id) }
        ensures tells { Claims edges.now (step (table self.now).slots 0 (length edges.now) 0 none) seat.old.me result.first seat.new.me }
        ensures edges { entries_in result ≡ numbered result.first edges.now };

    /// Stores the words of a claim, where its last slot is free by loads of both fronts; else the claim comes back.
    fn fill(&self, seat: &mut Seat<T>, claim: Claim) -> Fill
        requires at { IsAt (table self.now) seat.old.table_id seat.old.me.0 }
        requires owed { All (Contains seat.old.me.0.core.pending) (entries_in claim) }
        requires storable { All IsStorable (take claim.len claim.edges) }
        ensures stays { (seat.new.table_id ≡ seat.old.table_id) × (seat.new.id ≡ seat.old.id) }
        ensures fills { FillIs T.state_of (frame_of (key self.now)) (table self.now).slots claim seat.old.me result seat.new.me };

    /// Gives a claim up, once the seat saw the flag raised.
    fn abandon(&self, seat: &mut Seat<T>, claim: Claim)
        requires at { IsAt (table self.now) seat.old.table_id seat.old.me.0 }
        requires owed { All (Contains seat.old.me.0.core.pending) (entries_in claim) }
        requires flagged { seat.old.me.0.told.flagged ≡ true }
        ensures stays { (seat.new.table_id ≡ seat.old.table_id) × (seat.new.id ≡ seat.old.id) }
        ensures given_up { seat.new.me ≡ (for_each with_abandoned (entries_in claim) seat.old.me.0, seat.old.me.1) };

    /// Reads entries in their turn from a position on: as many as there are in a row and fit, among them all that the seat had seen.
    /// Only who moves a front may.
    fn take(&self, seat: &mut Seat<T>, from: u64, out: &mut [Edge]) -> usize
        requires at { IsAt (table self.now) seat.old.table_id seat.old.me.0 }
        requires can { CanTakeNext seat.old.me.0 from }
        ensures stays { (seat.new.table_id ≡ seat.old.table_id) × (seat.new.id ≡ seat.old.id) }
        ensures few { result ≤ length out.old }
        ensures rest { (length out.new ≡ length out.old) × (drop result out.new ≡ drop result out.old) }
        ensures takes { TakeIs from (length out.old) (take result out.new) seat.old.me seat.new.me }
        ensures longest { IsLongest (key self.now).layout.ring (length out.old) seat.old.me.0 from result };

    /// Copies the ring's words into a buffer of as many, each at its position's remainder, and loads both fronts after them.
    /// From the lesser front up to the end the buffer has the words of the entries; the end is at or past the archived front.
    fn copy(&self, seat: &mut Seat<T>, buf: &mut [u64]) -> Copied
        requires at { IsAt (table self.now) seat.old.table_id seat.old.me.0 }
        requires room { length buf.old ≡ (key self.now).layout.ring }
        ensures stays { (seat.new.table_id ≡ seat.old.table_id) × (seat.new.id ≡ seat.old.id) }
        ensures long { length buf.new ≡ length buf.old }
        ensures copies { Copies T.state_of (frame_of (key self.now)) (table self.now).slots seat.old.me seat.new.me result buf.new };

    /// Reads the archived front. No pin of the seat is past it, nor the cut of a shard in its hand.
    fn archived(&self, seat: &mut Seat<T>) -> u64
        requires at { IsAt (table self.now) seat.old.table_id seat.old.me.0 }
        ensures stays { (seat.new.table_id ≡ seat.old.table_id) × (seat.new.id ≡ seat.old.id) }
        ensures tells { LoadsArchived T.state_of (frame_of (key self.now)) (step (table self.now).slots 1 0 0 none) seat.old.me result seat.new.me };

    /// Reads the durable front.
    fn durable(&self, seat: &mut Seat<T>) -> u64
        requires at { IsAt (table self.now) seat.old.table_id seat.old.me.0 }
        ensures stays { (seat.new.table_id ≡ seat.old.table_id) × (seat.new.id ≡ seat.old.id) }
        ensures tells { LoadsDurable (frame_of (key self.now)) (step (table self.now).slots 2 0 0 none) seat.old.me result seat.new.me };

    /// Moves the archived front to where each shard is known to have stood.
    fn advance_archived(&self, seat: &mut Seat<T>, front: u64)
        requires at { IsAt (table self.now) seat.old.table_id seat.old.me.0 }
        requires can { CanArchiveTo (key self.now).layout.shards seat.old.me.0 front }
        ensures stays { (seat.new.table_id ≡ seat.old.table_id) × (seat.new.id ≡ seat.old.id) }
        ensures moves { StoresArchived (step (table self.now).slots 1 front 0 none) seat.old.me front seat.new.me };

    /// Moves the durable front, no further than the file is known to have stood.
    fn advance_durable(&self, seat: &mut Seat<T>, front: u64)
        requires at { IsAt (table self.now) seat.old.table_id seat.old.me.0 }
        requires can { CanFlushTo (key self.now).layout.shards seat.old.me.0 front }
        ensures stays { (seat.new.table_id ≡ seat.old.table_id) × (seat.new.id ≡ seat.old.id) }
        ensures moves { StoresDurable (step (table self.now).slots 2 front 0 none) seat.old.me front seat.new.me };

    /// Why the work has to stop, if it has to: none only where this seat raised no cause.
    fn flag(&self, seat: &mut Seat<T>) -> Option<Stop>
        requires at { IsAt (table self.now) seat.old.table_id seat.old.me.0 }
        ensures stays { (seat.new.table_id ≡ seat.old.table_id) × (seat.new.id ≡ seat.old.id) }
        ensures tells { LoadsFlag (step (table self.now).slots 3 0 0 none) seat.old.me (flag_of result) seat.new.me };

    /// Raises the flag.
    fn raise(&self, seat: &mut Seat<T>, why: Stop)
        requires at { IsAt (table self.now) seat.old.table_id seat.old.me.0 }
        ensures stays { (seat.new.table_id ≡ seat.old.table_id) × (seat.new.id ≡ seat.old.id) }
        ensures tells { StoresFlag (step (table self.now).slots 3 (cause_of why) 0 none) seat.old.me (cause_of why) seat.new.me };

    /// Ends the ring by the seat that has the whole lot, and no part in its hand.
    fn close(self, seat: Seat<T>) -> Closed<T>
        requires at { IsAt (table self) seat.table_id seat.me.0 }
        requires whole { seat.me.0.share.lot ≡ 2 ^ 32 }
        requires notes { seat.me.0.stake.notes ≡ [] }
        ensures left { IsClosed (meaning T.Part)
            (key self) seat.me.0 result.parts.items result.head result.archived result.durable };
}
