// Pieces: a shard and a log as a ring sees them.
ghost use Rattle.std.specs.Prelude.{◌≡◌, ◌∷◌, [], IfOk, ℕ};
ghost use Rattle.go_core.specs.Frame.{Frame};
ghost use Rattle.go_disk.specs.MemDisk.{mem_device};
ghost use Rattle.go_rule.specs.declared.view.SeatView.{SeatView};
ghost use Rattle.go_rule.specs.Meaning.{meaning};
ghost use Rattle.go_rule.specs.Turns.{IsTaken, CanGive};
ghost use Rattle.go_shard.specs.ShardState.{Keeps};
ghost use Rattle.go_piece.specs.Pieces.{state_in, Fits, KeepsFront};
ghost use Rattle.go_piece.specs.Meanings.{meaning_of};

use crate::Piece;
use go_api::Stop;
use go_core::Part;
use go_disk::{Disk, MemDisk};
use go_durable::{Flushed, Journal, Opened, attach};
use go_shard::Shard;
use go_word::Edge;
use std::alloc::{AllocError, Global};
use std::test::Fail;

const EDGE: Edge = Edge {
    del: false,
    src: 3,
    dst: 5,
};

// An addition.
fn add(src: u32, dst: u32) -> Edge
    ensures src { result.src ≡ src }
    ensures dst { result.dst ≡ dst }
{
    Edge {
        del: false,
        src,
        dst,
    }
}

// What a ring asks of a piece, it asks in the words of this crate.
fn a_ring_means_pieces_so<D: Disk>()
    ensures taken { (f : Frame) (d : SeatView (Piece D)) (place : ℕ) (piece : Piece D) → IsTaken (meaning ⟦<Piece<D> as Part>⟧) f d place piece →
        IsTaken (meaning_of D.device) f d place piece }
    ensures given { (f : Frame) (d : SeatView (Piece D)) (place : ℕ) (old new : Piece D) → CanGive (meaning_of D.device) f d place old new →
        CanGive (meaning ⟦<Piece<D> as Part>⟧) f d place old new }
{}

// Shard 1 of 2 over 8 vertices, after three entries.
fn begun(alloc: Global) -> Result<Shard, AllocError>
    ensures index { IfOk result (λ shard. shard.index ≡ 1) }
    ensures shards { IfOk result (λ shard. shard.shards ≡ 2) }
    ensures vertices { IfOk result (λ shard. shard.vertices ≡ 8) }
    ensures cut { IfOk result (λ shard. shard.cut ≡ 0) }
    ensures front { IfOk result (λ shard. shard.front ≡ 3) }
    ensures pins { IfOk result (λ shard. shard.pins ≡ []) }
    ensures kept { IfOk result (λ shard. Keeps shard 3) }
{
    let mut shard = Shard::new(alloc, 1, 2, 8)?;
    shard.append(&[add(1, 2), add(3, 2), add(1, 2)], 3)?;
    Ok(shard)
}

// The same after a batch more.
fn longer(alloc: Global) -> Result<Shard, AllocError>
    ensures index { IfOk result (λ shard. shard.index ≡ 1) }
    ensures shards { IfOk result (λ shard. shard.shards ≡ 2) }
    ensures vertices { IfOk result (λ shard. shard.vertices ≡ 8) }
    ensures cut { IfOk result (λ shard. shard.cut ≡ 0) }
    ensures front { IfOk result (λ shard. shard.front ≡ 6) }
    ensures pins { IfOk result (λ shard. shard.pins ≡ []) }
    ensures early { IfOk result (λ shard. Keeps shard 3) }
    ensures late { IfOk result (λ shard. Keeps shard 6) }
{
    let mut shard = begun(alloc)?;
    shard.append(&[add(1, 3), add(5, 1)], 6)?;
    Ok(shard)
}

// The same with a pin at the front 3.
fn pinned(alloc: Global) -> Result<Shard, AllocError>
    ensures index { IfOk result (λ shard. shard.index ≡ 1) }
    ensures shards { IfOk result (λ shard. shard.shards ≡ 2) }
    ensures vertices { IfOk result (λ shard. shard.vertices ≡ 8) }
    ensures cut { IfOk result (λ shard. shard.cut ≡ 0) }
    ensures front { IfOk result (λ shard. shard.front ≡ 6) }
    ensures pins { IfOk result (λ shard. shard.pins ≡ record { id = 9; front = 3 } ∷ []) }
    ensures early { IfOk result (λ shard. Keeps shard 3) }
    ensures late { IfOk result (λ shard. Keeps shard 6) }
{
    let mut shard = longer(alloc)?;
    shard.pin(9)?;
    shard.move_pin(9, 3);
    Ok(shard)
}

// The same, compacted up to its pin.
fn compacted(alloc: Global) -> Result<Piece<MemDisk>, AllocError>
    ensures state { IfOk result (λ piece. state_in piece ≡ record { front = 6; cut = 3; pins = record { id = 9; front = 3 } ∷ [] }) }
    ensures early { IfOk result (λ piece. KeepsFront piece 3) }
    ensures late { IfOk result (λ piece. KeepsFront piece 6) }
    ensures fits { IfOk result (λ piece. Fits mem_device piece 1 2 8) }
    ensures alone { IfOk result (λ piece. (place : ℕ) → Fits mem_device piece place 2 8 → place ≡ 1) }
{
    let mut shard = pinned(alloc)?;
    shard.compact(3)?;
    Ok(Piece::Shard { shard })
}

#[test]
fn a_shard_is_a_piece_up_to_its_front(rt: HostRuntime) -> Result<(), Fail> {
    let piece = Piece::<MemDisk>::Shard {
        shard: begun(rt.alloc())?,
    };
    assert_eq!(rt; piece.front(), 3);
    let piece = compacted(rt.alloc())?;
    assert_eq!(rt; piece.front(), 6);
    assert!(rt; !piece.has_failed());
    assert!(rt; piece.into_journal().is_err());
    Ok(())
}

// The file of a log of 8 vertices on a disk, as a piece.
fn attached(alloc: Global, disk: MemDisk) -> Result<Piece<MemDisk>, Fail>
    ensures fits { IfOk result (λ piece. Fits mem_device piece 2 2 8) }
    ensures alone { IfOk result (λ piece. (place : ℕ) → Fits mem_device piece place 2 8 → place ≡ 2) }
{
    match attach(alloc, disk, 8, 10) {
        Ok(Opened { log, edges: _ }) => Ok(Piece::Log { log }),
        Err(_) => Err(Fail::new("not attached")),
    }
}

// Appends an edge to the log's file that a piece is.
fn append(piece: Piece<MemDisk>) -> Result<(Piece<MemDisk>, Option<Stop>), Fail> {
    let Ok(journal) = piece.into_journal() else {
        return Err(Fail::new("a shard"));
    };
    if let Journal::Sound { log } = &journal {
        if log.front() > 100 || log.vertices() != 8 {
            return Err(Fail::new("another log"));
        }
    }
    let Flushed { journal, stop } = journal.flush(&[EDGE]);
    Ok((Piece::file(journal), stop))
}

#[test]
fn a_log_is_a_piece_up_to_its_durable_front(rt: HostRuntime) -> Result<(), Fail> {
    let disk = MemDisk::new(rt.alloc(), b"", 1000)?;
    let piece = attached(rt.alloc(), disk)?;
    assert_eq!(rt; piece.front(), 0);
    let (piece, stop) = append(piece)?;
    assert_eq!(rt; (piece.front(), stop), (1, None));
    assert!(rt; !piece.has_failed());
    Ok(())
}

// Eight calls make the file, and four append a block.
#[test]
fn a_log_whose_disk_fails_is_spent_at_its_durable_front(rt: HostRuntime) -> Result<(), Fail> {
    for call in 12..16 {
        let disk = MemDisk::failing(rt.alloc(), b"", &[call], 1000)?;
        let (piece, stop) = append(attached(rt.alloc(), disk)?)?;
        assert_eq!(rt; (piece.front(), stop), (1, None));
        let (piece, stop) = append(piece)?;
        assert_eq!(rt; (piece.front(), stop), (1, Some(Stop::Disk)));
        assert!(rt; piece.has_failed());
        let (piece, stop) = append(piece)?;
        assert_eq!(rt; (piece.front(), stop), (1, Some(Stop::Disk)));
    }
    Ok(())
}
