// What takers of turns do with a piece, each with what the ring asks of what they give back.
ghost use Rattle.std.specs.Prelude.{◌≡◌, ◌<◌, ◌≤◌, ◌-◌, ◌+◌, ◌^◌, ℕ, All, OnOk, length, false, true, max};
ghost use Rattle.go_core.specs.Frame.{Frame};
ghost use Rattle.go_core.specs.Parts.{IsShardPlace, IsFilePlace, reach_of};
ghost use Rattle.go_disk.specs.MemDisk.{Tape, mem_device};
ghost use Rattle.go_durable.specs.Journal.{CanAppend, is_spent};
ghost use Rattle.go_durable.specs.Recovery.{AreNext};
ghost use Rattle.go_durable.specs.declared.journal.Journal.TheVariants.{Sound};
ghost use Rattle.go_word.specs.Log.{IsWithin};
ghost use Rattle.go_word.specs.Pins.{has_name, is_named};
ghost use Rattle.go_rule.specs.declared.view.SeatView.{SeatView};
ghost use Rattle.go_rule.specs.Turns.{owns_at, CanGive};
ghost use Rattle.go_shard.specs.ShardState.{Keeps, is_own};
ghost use Rattle.go_shard.specs.Stands.{GoesOn};
ghost use Rattle.go_piece.specs.declared.piece.Piece.{Piece};
ghost use Rattle.go_piece.specs.declared.piece.Piece.TheVariants as pieces;
ghost use Rattle.go_piece.specs.Pieces.{file_of};
ghost use Rattle.go_piece.specs.Meanings.{meaning_of, stretch, IsShardInHand, IsLogInHand};

use go_disk::MemDisk;
use go_durable::{DurableLog, Flushed, Journal, Ranged};
use go_shard::Shard;
use go_word::Edge;
use std::alloc::AllocError;

// A batch is taken in.
fn append(shard: &mut Shard, batch: &[Edge], front: u64) -> Result<(), AllocError>
    requires later { shard.old.front < front }
    requires small { front < 2 ^ 32 }
    requires short { length batch.now ≤ front - shard.old.front }
    requires ids { All (IsWithin shard.old.vertices) batch.now }
    requires own { All (λ e. is_own shard.old e ≡ true) batch.now }
    ensures { (f : Frame) (d : SeatView (Piece Tape)) (place : ℕ) → IsShardPlace f place → IsShardInHand mem_device d.about place shard.old →
        GoesOn shard.old (stretch shard.old.front front d.told.seen) batch.now front → front ≤ reach_of d.core →
        OnOk result (CanGive (meaning_of mem_device) f d place (pieces.Shard shard.old) (pieces.Shard shard.new)) }
{
    shard.append(batch, front)?;
    Ok(())
}

// A shard is compacted as far as it may be.
fn compact(shard: &mut Shard, archived: u64) -> Result<(), AllocError>
    requires { shard.old.cut ≤ archived }
    ensures { (f : Frame) (d : SeatView (Piece Tape)) (place : ℕ) → IsShardPlace f place → IsShardInHand mem_device d.about place shard.old →
        archived ≤ d.core.archived → OnOk result (CanGive (meaning_of mem_device) f d place (pieces.Shard shard.old) (pieces.Shard shard.new)) }
{
    let front = shard.settled(archived);
    shard.compact(front)?;
    Ok(())
}

// A pin is put in.
fn pin(shard: &mut Shard) -> Result<u64, AllocError>
    ensures { (f : Frame) (d : SeatView (Piece Tape)) (place : ℕ) → IsShardPlace f place → IsShardInHand mem_device d.about place shard.old →
        OnOk result (CanGive (meaning_of mem_device) f d place (pieces.Shard shard.old) (pieces.Shard shard.new)) }
{
    let id = shard.free_pin();
    let front = shard.pin(id)?;
    Ok(front)
}

// A pin is moved upwards.
fn move_pin(shard: &mut Shard, id: u64, front: u64)
    requires named { has_name id shard.old.pins ≡ true }
    requires upwards { All (λ pin. is_named id pin ≡ true → pin.front ≤ front) shard.old.pins }
    requires kept { Keeps shard.old front }
    ensures { (f : Frame) (d : SeatView (Piece Tape)) (place : ℕ) → IsShardPlace f place → IsShardInHand mem_device d.about place shard.old →
        owns_at place d id ≡ true → front ≤ d.core.archived →
        CanGive (meaning_of mem_device) f d place (pieces.Shard shard.old) (pieces.Shard shard.new) }
{
    shard.move_pin(id, front);
}

// A pin is taken away.
fn unpin(shard: &mut Shard, id: u64)
    requires { has_name id shard.old.pins ≡ true }
    ensures { (f : Frame) (d : SeatView (Piece Tape)) (place : ℕ) → IsShardPlace f place → IsShardInHand mem_device d.about place shard.old →
        owns_at place d id ≡ true → CanGive (meaning_of mem_device) f d place (pieces.Shard shard.old) (pieces.Shard shard.new) }
{
    shard.unpin(id);
}

// Entries are appended to the file.
fn flush(log: DurableLog<MemDisk>, edges: &[Edge]) -> Flushed<MemDisk>
    requires { CanAppend edges.now (Sound log) }
    ensures { (f : Frame) (d : SeatView (Piece Tape)) (place : ℕ) → IsFilePlace f place → IsLogInHand mem_device d.about d.told.seen place log →
        AreNext edges.now log.front d.told.seen → log.front + length edges.now ≤ max log.front d.core.taken →
        (is_spent result.journal ≡ true → d.told.flagged ≡ true) →
        CanGive (meaning_of mem_device) f d place (pieces.Log log) (file_of result.journal) }
{
    Journal::Sound { log }.flush(edges)
}

// A range of entries is read from the file.
fn read(log: DurableLog<MemDisk>, a: u64, b: u64, out: &mut Vec<Edge>) -> Ranged<MemDisk>
    requires order { a ≤ b }
    requires within { b ≤ log.front }
    ensures { (f : Frame) (d : SeatView (Piece Tape)) (place : ℕ) → IsFilePlace f place → IsLogInHand mem_device d.about d.told.seen place log →
        (is_spent result.journal ≡ true → d.told.flagged ≡ true) →
        CanGive (meaning_of mem_device) f d place (pieces.Log log) (file_of result.journal) }
{
    Journal::Sound { log }.read_range(a, b, out)
}
