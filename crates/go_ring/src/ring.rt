// The calls of a ring over its steps.
ghost use Rattle.std.specs.Prelude.{◌≡◌, ◌^◌, ◌≤◌, ◌<◌, true, [], length, take, All, Contains};
ghost use Rattle.atomic_table.specs.Table.{step};
ghost use mathlib.Core.Option.{none};
ghost use Rattle.go_word.specs.Word.{IsStorable};
ghost use Rattle.go_core.specs.View.{numbered};
ghost use Rattle.go_rule.specs.Rule.{IsBelow};
ghost use Rattle.go_ring.specs.Claims.{entries_in};
ghost use Rattle.go_ring.specs.Calls.{FillIs, for_each};
ghost use Rattle.go_rule.specs.Meaning.{meaning};
ghost use Rattle.go_rule.specs.Closing.{IsClosed};
ghost use Rattle.go_rule.specs.Views.{frame_of, joining_seat, with_abandoned};
ghost use Rattle.go_rule.specs.Steps.{IsAt, Claims};

use crate::calls::RingCalls;
use crate::claim::{CLAIM_MOST, Claim, Fill, NO_EDGE};
use crate::copied::Copied;
use crate::copies::copy_ring;
use crate::room::Room;
use crate::stores::{abandon_all, store_all};
use crate::takes::take_run;
use go_api::Stop;
use go_core::Part;
use go_rule::{
    Closed, Ring, Seat, load_archived, load_durable, load_flag, load_head, store_archived,
    store_durable, store_flag,
};
use go_word::Edge;

impl<T: Part> RingCalls<T> for Ring<T> {
    ghost table = { λ r. r.table.shared.table_id };

    ghost key = { λ r. r.table.shared.key };

    fn split(&self, seat: &mut Seat<T>, quota: u64, lot: u64) -> Seat<T> {
        go_rule::split(self, seat, quota, lot)
    }

    fn join(&self, seat: &mut Seat<T>, other: Seat<T>)
        requires at { IsAt self.now.table.shared.table_id seat.old.table_id seat.old.me.0 }
        requires other_at { IsAt self.now.table.shared.table_id other.table_id other.me.0 }
        requires pending { other.me.0.core.pending ≡ [] }
        requires notes { other.me.0.stake.notes ≡ [] }
        requires slots { other.me.1 ≡ [] }
        ensures stays { (seat.new.table_id ≡ seat.old.table_id) × (seat.new.id ≡ seat.old.id) }
        ensures joins { seat.new.me ≡ (joining_seat seat.old.me.0 other.me.0, seat.old.me.1) }
    {
        go_rule::join(self, seat, other)
    }

    fn room(&self, seat: &mut Seat<T>) -> Room {
        let head = load_head(self, seat);
        let archived = load_archived(self, seat);
        let durable = load_durable(self, seat);
        let released = archived.min(durable);
        if head.saturating_sub(released) < self.slots {
            Room::Free
        } else {
            Room::Full { head, released }
        }
    }

    fn claim(&self, seat: &mut Seat<T>, edges: &[Edge]) -> Claim
        requires at { IsAt self.now.table.shared.table_id seat.old.table_id seat.old.me.0 }
        requires some { 1 ≤ length edges.now }
        requires few { length edges.now ≤ 64 }
        requires storable { All IsStorable edges.now }
        requires below { All (IsBelow self.now.table.shared.key.layout.vertices) edges.now }
        requires quota { length edges.now ≤ seat.old.me.0.share.quota }
        ensures stays { (seat.new.table_id ≡ seat.old.table_id) × (seat.new.id ≡ seat.old.id) }
        ensures tells { Claims edges.now (step self.now.table.shared.table_id.slots 0 (length edges.now) 0 none) seat.old.me result.first seat.new.me }
        ensures edges { entries_in result ≡ numbered result.first edges.now }
    {
        let mut kept = [NO_EDGE; CLAIM_MOST];
        kept[..edges.len()].copy_from_slice(edges);
        let first = go_rule::claim(self, seat, edges);
        Claim {
            first,
            len: edges.len() as u64,
            edges: kept,
        }
    }

    fn fill(&self, seat: &mut Seat<T>, claim: Claim) -> Fill
        requires at { IsAt self.now.table.shared.table_id seat.old.table_id seat.old.me.0 }
        requires owed { All (Contains seat.old.me.0.core.pending) (entries_in claim) }
        requires storable { All IsStorable (take claim.len claim.edges) }
        ensures stays { (seat.new.table_id ≡ seat.old.table_id) × (seat.new.id ≡ seat.old.id) }
        ensures fills { FillIs T.state_of (frame_of self.now.table.shared.key) self.now.table.shared.table_id.slots claim seat.old.me result seat.new.me }
    {
        let archived = load_archived(self, seat);
        let durable = load_durable(self, seat);
        let released = archived.min(durable);
        if claim.first + claim.len > released + self.slots {
            return Fill::Held { claim, released };
        }
        store_all(self, seat, claim.first, &claim.edges[..claim.len as usize]);
        let Claim {
            first,
            len: _,
            edges: _,
        } = claim;
        Fill::Done { position: first }
    }

    fn abandon(&self, seat: &mut Seat<T>, claim: Claim)
        requires at { IsAt self.now.table.shared.table_id seat.old.table_id seat.old.me.0 }
        requires owed { All (Contains seat.old.me.0.core.pending) (entries_in claim) }
        requires flagged { seat.old.me.0.told.flagged ≡ true }
        ensures stays { (seat.new.table_id ≡ seat.old.table_id) × (seat.new.id ≡ seat.old.id) }
        ensures given_up { seat.new.me ≡ (for_each with_abandoned (entries_in claim) seat.old.me.0, seat.old.me.1) }
    {
        abandon_all(self, seat, claim.first, &claim.edges[..claim.len as usize]);
        let Claim {
            first: _,
            len: _,
            edges: _,
        } = claim;
    }

    fn take(&self, seat: &mut Seat<T>, from: u64, out: &mut [Edge]) -> usize {
        take_run(self, seat, from, out)
    }

    fn copy(&self, seat: &mut Seat<T>, buf: &mut [u64]) -> Copied {
        copy_ring(self, seat, buf)
    }

    fn archived(&self, seat: &mut Seat<T>) -> u64 {
        load_archived(self, seat)
    }

    fn durable(&self, seat: &mut Seat<T>) -> u64 {
        load_durable(self, seat)
    }

    fn advance_archived(&self, seat: &mut Seat<T>, front: u64) {
        store_archived(self, seat, front)
    }

    fn advance_durable(&self, seat: &mut Seat<T>, front: u64) {
        store_durable(self, seat, front)
    }

    fn flag(&self, seat: &mut Seat<T>) -> Option<Stop> {
        match load_flag(self, seat) {
            0 => None,
            1 => Some(Stop::Disk),
            _ => Some(Stop::Memory),
        }
    }

    fn raise(&self, seat: &mut Seat<T>, why: Stop) {
        let cause = match why {
            Stop::Disk => 1,
            Stop::Memory => 2,
        };
        store_flag(self, seat, cause)
    }

    fn close(self, seat: Seat<T>) -> Closed<T>
        requires at { IsAt self.table.shared.table_id seat.table_id seat.me.0 }
        requires whole { seat.me.0.share.lot ≡ 2 ^ 32 }
        requires notes { seat.me.0.stake.notes ≡ [] }
        ensures left { IsClosed (meaning T.Part)
            self.table.shared.key seat.me.0 result.parts.items result.head result.archived result.durable }
    {
        go_rule::close(self, seat)
    }
}
