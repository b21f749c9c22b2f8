// The pins of a view are moved to the archived front, each in its shard's turn, and the counts there are read.
ghost use Rattle.std.specs.Prelude.{◌≡◌, ◌++◌, ◌^◌, ◌<◌, ◌≤◌, ℕ, List, length, take, true, All, MatchResult, OnOk};
ghost use Rattle.go_core.specs.Frame.{Frame};
ghost use Rattle.go_core.specs.Parts.{IsShardPlace};
ghost use Rattle.go_word.specs.Pins.{has_name};
ghost use Rattle.go_rule.specs.declared.view.SeatView.{SeatView};
ghost use Rattle.go_rule.specs.Rule.{IsBelow, pins_at};
ghost use Rattle.go_rule.specs.Steps.{IsAt};
ghost use Rattle.go_rule.specs.Turns.{owns_at, CanGive};
ghost use Rattle.go_rule.specs.Views.{frame_of};
ghost use Rattle.go_piece.specs.declared.piece.Piece.{Piece as APiece};
ghost use Rattle.go_piece.specs.Pieces.{state_in, OnShard};
ghost use Rattle.go_piece.specs.Meanings.{meaning_of, IsShardInHand};
ghost use Rattle.go_views.specs.Pins.{HasShifted, HasSettledEach};
ghost use Rattle.go_views.specs.PlaceTurns.{CanShift, HasServedAt, shifted};
ghost use Rattle.go_views.specs.Settling.{AddsCounts, AreCounted, AreRaw, CanSettle};

use crate::counts::Counts;
use crate::turning::{give_piece, take_piece};
use go_disk::Disk;
use go_piece::Piece;
use go_rule::{Ring, Seat};
use go_turns::Lifted;
use std::alloc::{AllocError, Global};
use std::sync::Wait;

// A piece whose pin was moved, and whether the counts of its vertices were read.
struct Counted<D> {
    piece: Piece<D>,
    counted: Result<(), AllocError>,
}

// Moves the pins of these names to the archived front, and reads how many entries had left each vertex there. Refused, some stand there
// and the others where they stood.
pub(crate) fn settle_each<D: Disk, R: Wait>(
    rt: &R,
    alloc: Global,
    ring: &Ring<Piece<D>>,
    seat: &mut Seat<Piece<D>>,
    names: &[u64],
    archived: u64,
) -> Result<Counts, AllocError>
    requires at { IsAt ring.now.table.shared.table_id seat.old.table_id seat.old.me.0 }
    requires shards { (length names.now ≡ ring.now.shards) × (1 ≤ ring.now.shards) × (ring.now.shards < 2 ^ 32) }
    requires can { CanSettle (frame_of ring.now.table.shared.key) names.now archived seat.old.me.0 }
    ensures stays { (seat.new.table_id ≡ seat.old.table_id) × (seat.new.id ≡ seat.old.id) }
    ensures hand { seat.new.me.1 ≡ seat.old.me.1 }
    ensures settled { MatchResult result
        (λ counts. HasSettledEach (frame_of ring.now.table.shared.key) ring.now.shards names.now archived seat.old.me.0 seat.new.me.0
        × AreCounted ring.now.shards archived counts seat.old.me.0)
        (λ _. (upto : ℕ) × (upto ≤ ring.now.shards)
        × HasSettledEach (frame_of ring.now.table.shared.key) upto names.now archived seat.old.me.0 seat.new.me.0) }
{
    let mut list = Vec::new(alloc);
    let mut place = 0;
    while place < names.len() as u32 {
        settle_place(
            rt,
            ring,
            seat,
            place,
            names[place as usize],
            archived,
            &mut list,
        )?;
        place += 1;
    }
    let shards = names.len();
    Ok(Counts::new(shards, list.len() / shards, list))
}

// Moves the pin of a name in the shard of a place to the archived front, in its turn, and adds the counts of the shard's vertices there.
fn settle_place<D: Disk, R: Wait>(
    rt: &R,
    ring: &Ring<Piece<D>>,
    seat: &mut Seat<Piece<D>>,
    place: u32,
    name: u64,
    archived: u64,
    list: &mut Vec<u32>,
) -> Result<(), AllocError>
    requires at { IsAt ring.now.table.shared.table_id seat.old.table_id seat.old.me.0 }
    requires place { place < ring.now.shards }
    requires known { (seat.old.me.0.core.archived ≡ archived) × (archived ≤ length seat.old.me.0.told.seen) }
    requires named { has_name name (pins_at place seat.old.me.0) ≡ true }
    requires upwards { All (λ pin. pin.front ≤ archived) (pins_at place seat.old.me.0) }
    ensures stays { (seat.new.table_id ≡ seat.old.table_id) × (seat.new.id ≡ seat.old.id) }
    ensures settled { HasServedAt place (HasShifted (record { id = name; front = archived })) seat.old.me seat.new.me }
    ensures counted { OnOk result ((counts : List ℕ) × (list.new.items ≡ list.old.items ++ counts)
        × AreRaw ring.now.shards seat.old.me.0.about.vertices place (take archived seat.old.me.0.told.seen) counts) }
{
    let Lifted { key, part } = take_piece(rt, ring, seat, place);
    let Counted { piece, counted } = settled(part, name, archived, list);
    give_piece(ring, seat, key, piece);
    counted
}

// The same of a shard that lies in a piece, which may be given back then by a seat whose name it is and that knows that front.
fn settled<D: Disk>(piece: Piece<D>, name: u64, archived: u64, list: &mut Vec<u32>) -> Counted<D>
    requires { OnShard (CanShift name archived) piece }
    ensures gives { (f : Frame) (d : SeatView (APiece D)) (place : ℕ) → IsShardPlace f place → OnShard (IsShardInHand D.device d.about place) piece →
        owns_at place d name ≡ true → archived ≤ d.core.archived → CanGive (meaning_of D.device) f d place piece result.piece }
    ensures pins { (state_in result.piece).pins ≡ shifted name archived (state_in piece).pins }
    ensures counted { OnOk result.counted (OnShard (AddsCounts archived list.old.items list.new.items) piece) }
{
    match piece {
        Piece::Shard { mut shard } => {
            shard.move_pin(name, archived);
            let counted = shard.counts_at(archived, list);
            Counted {
                piece: Piece::Shard { shard },
                counted,
            }
        }
        file => Counted {
            piece: file,
            counted: Err(AllocError),
        },
    }
}
