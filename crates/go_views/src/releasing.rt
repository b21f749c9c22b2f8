// Pins of shards are taken away, each in its shard's turn, and a view is released so.
ghost use Rattle.std.specs.Prelude.{◌≡◌, ◌^◌, ◌<◌, ◌≤◌, ℕ, length, true, get_or};
ghost use Rattle.go_core.specs.Frame.{Frame};
ghost use Rattle.go_core.specs.Parts.{IsShardPlace};
ghost use Rattle.go_word.specs.Pins.{has_name};
ghost use Rattle.go_rule.specs.declared.view.SeatView.{SeatView};
ghost use Rattle.go_rule.specs.Rule.{pins_at};
ghost use Rattle.go_rule.specs.Steps.{IsAt};
ghost use Rattle.go_rule.specs.Turns.{owns_at, CanGive};
ghost use Rattle.go_rule.specs.Views.{frame_of};
ghost use Rattle.go_piece.specs.declared.piece.Piece.{Piece as APiece};
ghost use Rattle.go_piece.specs.Pieces.{state_in, OnShard};
ghost use Rattle.go_piece.specs.Meanings.{meaning_of, IsShardInHand};
ghost use Rattle.go_views.specs.Pins.{HasLost, HasUnpinnedEach};
ghost use Rattle.go_views.specs.PlaceTurns.{HasNames, HasServedAt, without};
ghost use Rattle.go_views.specs.Views.{IsView};

use crate::live_view::LiveView;
use crate::turning::{give_piece, take_piece};
use go_disk::Disk;
use go_piece::Piece;
use go_rule::{Ring, Seat};
use go_turns::Lifted;
use std::sync::Wait;

impl LiveView {
    /// Releases the view: its pins are taken away, so that compactions go on past it. It needs no memory.
    pub fn release<D: Disk, R: Wait>(self, rt: &R, ring: &Ring<Piece<D>>, seat: &mut Seat<Piece<D>>)
        requires at { IsAt ring.now.table.shared.table_id seat.old.table_id seat.old.me.0 }
        requires shards { ring.now.shards < 2 ^ 32 }
        requires is { IsView ring.now.shards self seat.old.me.0 }
        ensures stays { (seat.new.table_id ≡ seat.old.table_id) × (seat.new.id ≡ seat.old.id) }
        ensures hand { seat.new.me.1 ≡ seat.old.me.1 }
        ensures released { HasUnpinnedEach (frame_of ring.now.table.shared.key) ring.now.shards self.names seat.old.me.0 seat.new.me.0 }
    {
        unpin_each(rt, ring, seat, &self.names);
    }
}

// Takes the pins of these names away, by the places of their shards.
pub(crate) fn unpin_each<D: Disk, R: Wait>(
    rt: &R,
    ring: &Ring<Piece<D>>,
    seat: &mut Seat<Piece<D>>,
    names: &[u64],
)
    requires at { IsAt ring.now.table.shared.table_id seat.old.table_id seat.old.me.0 }
    requires shards { (length names.now ≤ ring.now.shards) × (ring.now.shards < 2 ^ 32) }
    requires named { HasNames names.now seat.old.me.0 }
    ensures stays { (seat.new.table_id ≡ seat.old.table_id) × (seat.new.id ≡ seat.old.id) }
    ensures hand { seat.new.me.1 ≡ seat.old.me.1 }
    ensures unpinned { HasUnpinnedEach (frame_of ring.now.table.shared.key) (length names.now) names.now seat.old.me.0 seat.new.me.0 }
{
    let mut place = 0;
    while place < names.len() as u32 {
        unpin_place(rt, ring, seat, place, names[place as usize]);
        place += 1;
    }
}

// Takes the pin of a name away from the shard of a place, in its turn.
fn unpin_place<D: Disk, R: Wait>(
    rt: &R,
    ring: &Ring<Piece<D>>,
    seat: &mut Seat<Piece<D>>,
    place: u32,
    name: u64,
)
    requires at { IsAt ring.now.table.shared.table_id seat.old.table_id seat.old.me.0 }
    requires place { place < ring.now.shards }
    requires named { has_name name (pins_at place seat.old.me.0) ≡ true }
    ensures stays { (seat.new.table_id ≡ seat.old.table_id) × (seat.new.id ≡ seat.old.id) }
    ensures unpinned { HasServedAt place (HasLost name) seat.old.me seat.new.me }
{
    let Lifted { key, part } = take_piece(rt, ring, seat, place);
    let piece = unpinned(part, name);
    give_piece(ring, seat, key, piece);
}

// Takes the pin of a name away from a shard that lies in a piece, which may be given back then by a seat whose name it is.
fn unpinned<D: Disk>(piece: Piece<D>, name: u64) -> Piece<D>
    requires { OnShard (λ shard. has_name name shard.pins ≡ true) piece }
    ensures gives { (f : Frame) (d : SeatView (APiece D)) (place : ℕ) → IsShardPlace f place → OnShard (IsShardInHand D.device d.about place) piece →
        owns_at place d name ≡ true → CanGive (meaning_of D.device) f d place piece result }
    ensures pins { (state_in result).pins ≡ without name (state_in piece).pins }
{
    match piece {
        Piece::Shard { mut shard } => {
            shard.unpin(name);
            Piece::Shard { shard }
        }
        file => file,
    }
}
