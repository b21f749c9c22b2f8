// A shard is brought on to the end of a run of entries.
ghost use Rattle.std.specs.Prelude.{◌≡◌, ◌+◌, ◌-◌, ℕ, OnErr, OnOk, drop, length};
ghost use Rattle.go_core.specs.Frame.{Frame};
ghost use Rattle.go_core.specs.Parts.{IsShardPlace};
ghost use Rattle.go_rule.specs.declared.view.SeatView.{SeatView};
ghost use Rattle.go_rule.specs.Turns.{CanGive};
ghost use Rattle.go_piece.specs.declared.piece.Piece.{Piece as APiece};
ghost use Rattle.go_piece.specs.Pieces.{state_in, OnShard};
ghost use Rattle.go_piece.specs.Meanings.{meaning_of, IsShardInHand};
ghost use Rattle.go_workers.specs.Bringing.{CanBringOn, IsBroughtOn};
ghost use Rattle.go_workers.specs.Turns.{MayBringOn};

use crate::counting::own_in;
use crate::tried::Tried;
use go_disk::Disk;
use go_piece::Piece;
use go_shard::Shard;
use go_word::{Edge, Edges};
use std::alloc::AllocError;

/// Brings a shard on to the end of a run of entries from a position on, which are split among the shards: it takes its own ones
/// that it lacks. Where it lacks none its front goes on all the same. Refused, it is what it was.
pub fn bring_on(
    shard: &mut Shard,
    place: u32,
    from: u64,
    run: &[Edge],
    lists: &[Edges],
) -> Result<(), AllocError>
    requires { CanBringOn place from run.now lists.now shard.old }
    ensures brought { OnOk result (IsBroughtOn (drop (shard.old.front - from) run.now) (from + length run.now) shard.old shard.new) }
    ensures err { OnErr result (shard.new ≡ shard.old) }
{
    let front = from + run.len() as u64;
    let known = shard.front();
    if known == front {
        return Ok(());
    }
    let had = own_in(&run[..(known - from) as usize], place, lists.len() as u32);
    shard.append(&lists[place as usize].as_slice()[had..], front)
}

// The same of a shard that lies in a piece: it may be given back by a seat that has read the run.
pub(crate) fn brought<D: Disk>(
    piece: Piece<D>,
    place: u32,
    from: u64,
    run: &[Edge],
    lists: &[Edges],
) -> Tried<D>
    requires { OnShard (CanBringOn place from run.now lists.now) piece }
    ensures gives { (f : Frame) (d : SeatView (APiece D)) → IsShardPlace f place → OnShard (IsShardInHand D.device d.about place) piece →
        MayBringOn from run.now d → CanGive (meaning_of D.device) f d place piece result.piece }
    ensures front { OnOk result.done ((state_in result.piece).front ≡ from + length run.now) }
    ensures pins { (state_in result.piece).pins ≡ (state_in piece).pins }
{
    match piece {
        Piece::Shard { mut shard } => {
            let done = bring_on(&mut shard, place, from, run, lists);
            Tried {
                piece: Piece::Shard { shard },
                done,
            }
        }
        file => Tried {
            piece: file,
            done: Ok(()),
        },
    }
}
