// A ring whose parts are pieces: it is opened over them, and a shard is taken and given back.
ghost use Rattle.std.specs.Prelude.{◌≡◌, ◌+◌, ◌<◌, ℕ, IfOk, true};
ghost use Rattle.go_core.specs.Frame.{Frame};
ghost use Rattle.go_core.specs.Parts.{IsShardPlace};
ghost use Rattle.go_disk.specs.MemDisk.{Tape, mem_device};
ghost use Rattle.go_rule.specs.declared.view.SeatView.{SeatView};
ghost use Rattle.go_rule.specs.Samples.{IsFree};
ghost use Rattle.go_rule.specs.Steps.{IsAt};
ghost use Rattle.go_rule.specs.Turns.{taking, IsTaken, CanGive};
ghost use Rattle.go_piece.specs.declared.piece.Piece.{Piece as APiece};
ghost use Rattle.go_piece.specs.declared.piece.Piece.TheVariants.{Shard as AShard};
ghost use Rattle.go_piece.specs.Meanings.{meaning_of, IsShardInHand};

use crate::{Piece, lay_out};
use go_core::ring_words;
use go_disk::MemDisk;
use go_durable::attach;
use go_rule::{Key, Layout, Opened, Ring, Seat, give_turn, take_turn};
use go_shard::{Shard, empty_shards};
use std::alloc::{AllocError, Global};
use std::snapshot::Snapshot;
use std::test::Fail;

// A ring of eight slots over eight vertices, with two shards and the file of a log without entries.
fn opened(alloc: Global, disk: MemDisk) -> Result<Opened<Piece<MemDisk>>, AllocError>
    ensures at { IfOk result (λ o. IsAt o.ring.table.shared.table_id o.seat.table_id o.seat.me.0) }
    ensures shards { IfOk result (λ o. o.ring.shards ≡ 2) }
    ensures free { IfOk result (λ o. IsFree o.seat.me) }
{
    let go_durable::Opened { log, edges } = match attach(alloc, disk, 8, 0) {
        Ok(found) => found,
        Err(_) => return Err(AllocError),
    };
    if edges.len() != 0 {
        return Err(AllocError);
    }
    let file = Piece::Log { log };
    let key = Key {
        layout: Layout {
            vertices: 8,
            ring: 8,
            shards: 2,
        },
        first: 0,
        quota: 1,
        opened: Snapshot::of(&edges),
        file: Snapshot::of(&file),
    };
    let words = ring_words(alloc, 7, 8, 0)?;
    let shards = empty_shards(alloc, 2, 8)?;
    let slots = lay_out(shards, file, Vec::with_capacity(alloc, 3)?);
    let spare = Vec::with_capacity(alloc, 3)?;
    match Ring::open(alloc, &key, words.as_slice(), slots, spare) {
        Ok(opened) => Ok(opened),
        Err(refused) => {
            drop(refused);
            Err(AllocError)
        }
    }
}

// A shard with a pin more, where there is memory.
fn with_pin(mut shard: Shard) -> Piece<MemDisk>
    ensures { (f : Frame) (d : SeatView (APiece Tape)) (place : ℕ) → IsShardPlace f place → IsShardInHand mem_device d.about place shard →
        CanGive (meaning_of mem_device) f d place (AShard shard) result }
{
    let id = shard.free_pin();
    match shard.pin(id) {
        Ok(_) => Piece::Shard { shard },
        Err(_) => Piece::Shard { shard },
    }
}

// A piece that lies in a shard's place, with a pin more, where there is memory.
fn pinned(piece: Piece<MemDisk>) -> Piece<MemDisk>
    ensures { (f : Frame) (d : SeatView (APiece Tape)) (place : ℕ) → IsShardPlace f place → d.about.shards + 5 ≡ f.base →
        IsTaken (meaning_of mem_device) f d place piece → CanGive (meaning_of mem_device) f (taking place piece d) place piece result }
{
    match piece {
        Piece::Shard { shard } => with_pin(shard),
        file => file,
    }
}

// Pins a shard whose turn is free.
fn pin(ring: &Ring<Piece<MemDisk>>, seat: &mut Seat<Piece<MemDisk>>, place: u64) -> bool
    requires at { IsAt ring.now.table.shared.table_id seat.old.table_id seat.old.me.0 }
    requires free { IsFree seat.old.me }
    requires shard { place < ring.now.shards }
    ensures at { IsAt ring.now.table.shared.table_id seat.new.table_id seat.new.me.0 }
    ensures free { result ≡ true → IsFree seat.new.me }
{
    if take_turn(ring, seat, place) != 0 {
        return false;
    }
    let Some(piece) = ring.table.shared.exchange(seat, place as usize, None) else {
        unreachable!()
    };
    let left = ring
        .table
        .shared
        .exchange(seat, place as usize, Some(pinned(piece)));
    drop(left);
    give_turn(ring, seat, place);
    true
}

// What crosses threads.
fn crosses<T: Send + Sync>(_part: &T) {}

#[test]
fn a_shard_is_taken_and_given_back(rt: HostRuntime) -> Result<(), Fail> {
    let Opened { ring, mut seat } = opened(rt.alloc(), MemDisk::new(rt.alloc(), b"", 1000)?)?;
    crosses(&ring);
    assert!(rt; pin(&ring, &mut seat, 0));
    assert!(rt; pin(&ring, &mut seat, 1));
    assert!(rt; pin(&ring, &mut seat, 0));
    assert!(rt; take_turn(&ring, &mut seat, 1) == 0 && take_turn(&ring, &mut seat, 1) == 1);
    Ok(())
}
