// A shard is compacted as far as it may be.
ghost use Rattle.std.specs.Prelude.{◌≡◌, ◌≤◌, ℕ, OnErr, OnOk};
ghost use Rattle.go_core.specs.Frame.{Frame};
ghost use Rattle.go_core.specs.Parts.{IsShardPlace};
ghost use Rattle.go_rule.specs.declared.view.SeatView.{SeatView};
ghost use Rattle.go_rule.specs.Turns.{CanGive};
ghost use Rattle.go_piece.specs.declared.piece.Piece.{Piece as APiece};
ghost use Rattle.go_piece.specs.Pieces.{state_in, OnShard};
ghost use Rattle.go_piece.specs.Meanings.{meaning_of, IsShardInHand};
ghost use Rattle.go_workers.specs.Bringing.{IsCompactedTo, IsCompactedPiece};

use crate::tried::Tried;
use go_disk::Disk;
use go_piece::Piece;
use go_shard::Shard;
use std::alloc::AllocError;

/// Compacts a shard up to the greatest front that it keeps, is at most the archived one, and is at most each pin. Refused, it is what it was.
pub fn compact_shard(shard: &mut Shard, archived: u64) -> Result<(), AllocError>
    requires { shard.old.cut ≤ archived }
    ensures compacted { OnOk result (IsCompactedTo archived shard.old shard.new) }
    ensures err { OnErr result (shard.new ≡ shard.old) }
{
    let front = shard.settled(archived);
    shard.compact(front)
}

// The same of a shard that lies in a piece: it may be given back by a seat that knows that archived front.
pub(crate) fn compacted<D: Disk>(piece: Piece<D>, archived: u64) -> Tried<D>
    requires { OnShard (λ shard. shard.cut ≤ archived) piece }
    ensures gives { (f : Frame) (d : SeatView (APiece D)) (place : ℕ) → IsShardPlace f place → OnShard (IsShardInHand D.device d.about place) piece →
        archived ≤ d.core.archived → CanGive (meaning_of D.device) f d place piece result.piece }
    ensures compacted { OnOk result.done (IsCompactedPiece archived piece result.piece) }
    ensures pins { (state_in result.piece).pins ≡ (state_in piece).pins }
{
    match piece {
        Piece::Shard { mut shard } => {
            let done = compact_shard(&mut shard, archived);
            Tried {
                piece: Piece::Shard { shard },
                done,
            }
        }
        file => Tried {
            piece: file,
            done: Ok(()),
        },
    }
}
