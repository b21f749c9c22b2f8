// The shard of a place is taken out of a ring with its turn, to be changed and given back.
ghost use Rattle.std.specs.Prelude.{◌≡◌, ◌<◌};
ghost use Rattle.go_rule.specs.Steps.{IsAt};
ghost use Rattle.go_rule.specs.Views.{frame_of};
ghost use Rattle.go_turns.specs.Holding.{Takes, MayGive, Gives};
ghost use Rattle.go_piece.specs.Pieces.{OnShard};
ghost use Rattle.go_piece.specs.Meanings.{meaning_of, IsShardInHand};

use go_disk::Disk;
use go_piece::Piece;
use go_rule::{Ring, Seat};
use go_turns::{Hold, Lifted, TurnKey, give, take};
use std::sync::Wait;

// Takes the shard of a place, in the piece that it lies in, with its turn.
pub(crate) fn take_piece<D: Disk, R: Wait>(
    rt: &R,
    ring: &Ring<Piece<D>>,
    seat: &mut Seat<Piece<D>>,
    place: u32,
) -> Lifted<Piece<D>>
    requires at { IsAt ring.now.table.shared.table_id seat.old.table_id seat.old.me.0 }
    requires place { place < ring.now.shards }
    ensures stays { (seat.new.table_id ≡ seat.old.table_id) × (seat.new.id ≡ seat.old.id) }
    ensures key { result.key.place ≡ place }
    ensures takes { Takes (meaning_of D.device) (frame_of ring.now.table.shared.key) place result.part seat.old.me seat.new.me }
    ensures held { OnShard (IsShardInHand D.device seat.new.me.0.about place) result.part }
{
    take(rt, ring, seat, place).lift()
}

// Gives a piece back with its turn.
pub(crate) fn give_piece<D: Disk>(
    ring: &Ring<Piece<D>>,
    seat: &mut Seat<Piece<D>>,
    key: TurnKey,
    piece: Piece<D>,
)
    requires at { IsAt ring.now.table.shared.table_id seat.old.table_id seat.old.me.0 }
    requires within { key.place < ring.now.shards }
    requires may { MayGive (meaning_of D.device) (frame_of ring.now.table.shared.key) key.place piece seat.old.me }
    ensures stays { (seat.new.table_id ≡ seat.old.table_id) × (seat.new.id ≡ seat.old.id) }
    ensures gives { Gives (meaning_of D.device) key.place piece seat.old.me seat.new.me }
{
    give(ring, seat, Hold::back(key, piece));
}
