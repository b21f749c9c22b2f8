// Each shard of a ring is pinned at its cut, in its turn.
ghost use Rattle.std.specs.Prelude.{◌≡◌, ◌^◌, ◌<◌, ℕ, length, MatchResult};
ghost use Rattle.go_core.specs.Frame.{Frame};
ghost use Rattle.go_core.specs.Parts.{IsShardPlace};
ghost use Rattle.go_rule.specs.declared.view.SeatView.{SeatView};
ghost use Rattle.go_rule.specs.Steps.{IsAt};
ghost use Rattle.go_rule.specs.Turns.{CanGive};
ghost use Rattle.go_rule.specs.Views.{frame_of};
ghost use Rattle.go_turns.specs.Going.{HasGoneOn};
ghost use Rattle.go_piece.specs.declared.piece.Piece.{Piece as APiece};
ghost use Rattle.go_piece.specs.Pieces.{state_in, OnShard};
ghost use Rattle.go_piece.specs.Meanings.{meaning_of, IsShardInHand};
ghost use Rattle.go_views.specs.Pins.{HasPinnedEach};
ghost use Rattle.go_views.specs.PlaceTurns.{AreSame, HasNewName, IsAdded, HasServedAt};

use crate::releasing::unpin_each;
use crate::turning::{give_piece, take_piece};
use go_disk::Disk;
use go_piece::Piece;
use go_rule::{Ring, Seat};
use go_shard::Shard;
use go_turns::Lifted;
use std::alloc::{AllocError, Global};
use std::sync::Wait;

// A piece that was to be pinned, and the pin's name.
struct Named<D> {
    piece: Piece<D>,
    name: Result<u64, AllocError>,
}

// Pins each shard at its cut, and gives the names of the pins by place. Refused, it leaves no pin.
pub(crate) fn pin_each<D: Disk, R: Wait>(
    rt: &R,
    alloc: Global,
    ring: &Ring<Piece<D>>,
    seat: &mut Seat<Piece<D>>,
) -> Result<Vec<u64>, AllocError>
    requires at { IsAt ring.now.table.shared.table_id seat.old.table_id seat.old.me.0 }
    requires shards { ring.now.shards < 2 ^ 32 }
    ensures stays { (seat.new.table_id ≡ seat.old.table_id) × (seat.new.id ≡ seat.old.id) }
    ensures hand { seat.new.me.1 ≡ seat.old.me.1 }
    ensures pinned { MatchResult result
        (λ names. (length names.items ≡ ring.now.shards)
        × HasPinnedEach (frame_of ring.now.table.shared.key) ring.now.shards names.items seat.old.me.0 seat.new.me.0)
        (λ _. HasGoneOn (frame_of ring.now.table.shared.key) seat.old.me.0 seat.new.me.0) }
{
    let mut names = Vec::with_capacity(alloc, ring.shards as usize)?;
    let mut place = 0;
    while place < ring.shards as u32 {
        match pin_place(rt, ring, seat, place) {
            Ok(name) => names.push_reserved(name),
            Err(refused) => {
                unpin_each(rt, ring, seat, &names);
                return Err(refused);
            }
        }
        place += 1;
    }
    Ok(names)
}

// Pins the shard of a place at its cut, in its turn, and gives the pin's name.
fn pin_place<D: Disk, R: Wait>(
    rt: &R,
    ring: &Ring<Piece<D>>,
    seat: &mut Seat<Piece<D>>,
    place: u32,
) -> Result<u64, AllocError>
    requires at { IsAt ring.now.table.shared.table_id seat.old.table_id seat.old.me.0 }
    requires place { place < ring.now.shards }
    ensures stays { (seat.new.table_id ≡ seat.old.table_id) × (seat.new.id ≡ seat.old.id) }
    ensures pinned { MatchResult result (λ name. HasServedAt place (HasNewName name) seat.old.me seat.new.me)
        (λ _. HasServedAt place AreSame seat.old.me seat.new.me) }
{
    let Lifted { key, part } = take_piece(rt, ring, seat, place);
    let Named { piece, name } = pinned(part);
    give_piece(ring, seat, key, piece);
    name
}

// Pins a shard that lies in a piece, which may be given back then.
fn pinned<D: Disk>(piece: Piece<D>) -> Named<D>
    ensures gives { (f : Frame) (d : SeatView (APiece D)) (place : ℕ) → IsShardPlace f place → OnShard (IsShardInHand D.device d.about place) piece →
        CanGive (meaning_of D.device) f d place piece result.piece }
    ensures pins { MatchResult result.name
        (λ name. (front : ℕ) × IsAdded name front (state_in piece).pins (state_in result.piece).pins)
        (λ _. (state_in result.piece).pins ≡ (state_in piece).pins) }
{
    match piece {
        Piece::Shard { mut shard } => {
            let name = pin_shard(&mut shard);
            Named {
                piece: Piece::Shard { shard },
                name,
            }
        }
        file => Named {
            piece: file,
            name: Err(AllocError),
        },
    }
}

// Pins a shard at its cut under a name that is no pin's, and gives that.
fn pin_shard(shard: &mut Shard) -> Result<u64, AllocError>
    ensures { MatchResult result
        (λ name. IsAdded name shard.old.cut shard.old.pins shard.new.pins × (shard.new ≡ record shard.old { pins = shard.new.pins }))
        (λ _. shard.new ≡ shard.old) }
{
    let name = shard.free_pin();
    shard.pin(name)?;
    Ok(name)
}
