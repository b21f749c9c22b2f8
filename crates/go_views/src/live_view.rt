// A view of a log at one front.
ghost use Rattle.std.specs.Prelude.{◌≡◌, ◌<◌, OnOk, length, take};
ghost use Rattle.go_word.specs.Neighbours.{neighbours};
ghost use Rattle.go_rule.specs.Steps.{IsAt};
ghost use Rattle.go_rule.specs.Views.{frame_of};
ghost use Rattle.go_turns.specs.Going.{HasGoneOn};
ghost use Rattle.go_piece.specs.Pieces.{OnShard};
ghost use Rattle.go_views.specs.Reading.{HasPinned, Lists};
ghost use Rattle.go_views.specs.Views.{degree_of, IsView};

use crate::counts::Counts;
use go_disk::Disk;
use go_piece::Piece;
use go_rule::{Ring, Seat};
use go_shard::{ByVertex, list_pinned};
use go_turns::{give, take};
use go_word::Pin;
use std::alloc::{AllocError, Global};
use std::marker::Model;
use std::sync::Wait;

/// A view of a log at one front. It has how many entries had left each vertex at the archived front, the words of the entries from there on, and a pin
/// in each shard, which keeps what was there.
#[derive(Drop)]
pub struct LiveView {
    pub(crate) front: u64,
    pub(crate) archived: u64,
    pub(crate) counts: Counts,
    pub(crate) later: ByVertex,
    pub(crate) names: Vec<u64>,
}

impl Model for LiveView {
    ghost use Rattle.go_views.specs.Views.{View, IsWhole};

    ghost Value = { View };

    ghost view = { λ view. record {
      front = view.front;
      archived = view.archived;
      counts = view.counts;
      later = view.later;
      names = view.names.items;
    } };

    ghost invariant = { λ view. IsWhole (record {
      front = view.front;
      archived = view.archived;
      counts = view.counts;
      later = view.later;
      names = view.names.items;
    }) };
}

impl LiveView {
    /// How many entries of the log the view has: its first ones.
    pub fn front(&self) -> u64
        ensures { result ≡ self.now.front }
    {
        self.front
    }

    /// How many of them leave a vertex, additions and deletions alike.
    pub fn raw_degree(&self, v: u32) -> u32
        requires { v < length self.now.later.ends }
        ensures { result ≡ degree_of self.now v }
    {
        self.counts.of(v) + self.later.of(v).len() as u32
    }

    /// Gives the neighbours of a vertex after them into `out`, which is cleared first, whatever has come to the log since.
    ///
    /// It takes the turn of the vertex's shard, and gives it back. After want of memory nothing is claimed of `out`.
    pub fn neighbours<D: Disk, R: Wait>(
        &self,
        rt: &R,
        alloc: Global,
        ring: &Ring<Piece<D>>,
        seat: &mut Seat<Piece<D>>,
        v: u32,
        out: &mut Vec<u32>,
    ) -> Result<(), AllocError>
        requires at { IsAt ring.now.table.shared.table_id seat.old.table_id seat.old.me.0 }
        requires view { IsView ring.now.shards self.now seat.old.me.0 }
        requires below { v < seat.old.me.0.about.vertices }
        ensures stays { (seat.new.table_id ≡ seat.old.table_id) × (seat.new.id ≡ seat.old.id) }
        ensures hand { seat.new.me.1 ≡ seat.old.me.1 }
        ensures on { HasGoneOn (frame_of ring.now.table.shared.key) seat.old.me.0 seat.new.me.0 }
        ensures told { seat.new.me.0.told ≡ seat.old.me.0.told }
        ensures list { OnOk result (out.new.items ≡ neighbours (take self.now.front seat.old.me.0.told.seen) v) }
    {
        let place = v as usize % self.counts.shards();
        let pin = Pin {
            id: self.names[place],
            front: self.archived,
        };
        let hold = take(rt, ring, seat, place as u32);
        let listed = list_in(alloc, hold.part(), v, pin, self.later.of(v), out);
        give(ring, seat, hold);
        listed
    }
}

// The neighbours of a vertex at a pin of its shard, and after later words, where the shard lies in a piece.
fn list_in<D: Disk>(
    alloc: Global,
    piece: &Piece<D>,
    v: u32,
    pin: Pin,
    later: &[u64],
    out: &mut Vec<u32>,
) -> Result<(), AllocError>
    requires { OnShard (HasPinned v pin) piece.now }
    ensures { OnShard (Lists v pin later.now result out.new.items) piece.now }
{
    match piece {
        Piece::Shard { shard } => list_pinned(alloc, shard, v, pin, later, out),
        _ => unreachable!(),
    }
}
