// The pieces of a ring at its beginning.
ghost use Rattle.std.specs.Prelude.{◌≡◌, ◌<◌, [], map, Some, vec_len, vec_capacity};
ghost use Rattle.go_durable.specs.LogState.{LogState};
ghost use Rattle.go_rule.specs.declared.layout.Key.{Key};
ghost use Rattle.go_rule.specs.Opening.{CanOpen};
ghost use Rattle.go_piece.specs.declared.piece.Piece.{Piece as APiece};
ghost use Rattle.go_piece.specs.declared.piece.Piece.TheVariants.{Log};
ghost use Rattle.go_piece.specs.Laying.{laid_out, HaveOpened};
ghost use Rattle.go_piece.specs.Meanings.{meaning_of};

use crate::piece::Piece;
use go_disk::Disk;
use go_shard::Shard;

/// The pieces by their places, in slots that have room for them: the shards in their order, and behind them the log's file.
///
/// A ring may be opened over them whose first position they have come to.
pub fn lay_out<D: Disk>(
    shards: Vec<Shard>,
    file: Piece<D>,
    mut slots: Vec<Option<Piece<D>>>,
) -> Vec<Option<Piece<D>>>
    requires empty { slots.items ≡ [] }
    requires room { vec_len shards < vec_capacity slots }
    ensures laid { result.items ≡ map Some (laid_out shards.items file) }
    ensures opens { (key : Key (APiece D)) (kept : LogState D) → HaveOpened D.device key shards.items kept → file ≡ Log kept →
        CanOpen (meaning_of D.device) key result.items }
{
    for shard in shards {
        slots.push_reserved(Some(Piece::Shard { shard }));
    }
    slots.push_reserved(Some(file));
    slots
}
