// The log's file takes what it lacks of a run of entries.
ghost use Rattle.std.specs.Prelude.{◌≡◌, ◌+◌, ◌≤◌, ◌-◌, ◌⊎◌, ℕ, length, drop, true};
ghost use Rattle.go_core.specs.Frame.{Frame};
ghost use Rattle.go_core.specs.Parts.{IsFilePlace};
ghost use Rattle.go_durable.specs.Journal.{KeepsOn};
ghost use Rattle.go_durable.specs.declared.journal.Journal.TheVariants.{Sound as ASound};
ghost use Rattle.go_rule.specs.declared.view.SeatView.{SeatView};
ghost use Rattle.go_rule.specs.Turns.{CanGive};
ghost use Rattle.go_piece.specs.declared.piece.Piece.{Piece as APiece};
ghost use Rattle.go_piece.specs.Meanings.{meaning_of};
ghost use Rattle.go_workers.specs.Bringing.{lacking, CanAppendTo, HasAppendedTo, HasAppendedPiece, IsFileInHand, OnFile, is_disk};
ghost use Rattle.go_workers.specs.Turns.{HasRead};

use go_api::Stop;
use go_disk::Disk;
use go_durable::{DurableLog, Flushed, Journal, LogFault};
use go_piece::Piece;
use go_word::Edge;

/// Appends to a journal what it lacks of a run of entries from a position on, as one block.
///
/// Where it lacks none nothing is done. For want of memory it is what it was, and after a fault of the disk it is spent. One that was
/// spent stays so.
pub fn append_to<D: Disk>(journal: Journal<D>, from: u64, run: &[Edge]) -> Flushed<D>
    requires { CanAppendTo from run.now journal }
    ensures keeps { KeepsOn D.device (lacking journal from run.now) journal result.journal }
    ensures appended { HasAppendedTo D.device (from + length run.now) journal result.journal result.stop }
{
    match journal {
        Journal::Sound { log } => append_lacking(log, from, run),
        spent => Flushed {
            journal: spent,
            stop: Some(Stop::Disk),
        },
    }
}

// Appends to a log what it lacks.
fn append_lacking<D: Disk>(log: DurableLog<D>, from: u64, run: &[Edge]) -> Flushed<D>
    requires { CanAppendTo from run.now (ASound log) }
    ensures keeps { KeepsOn D.device (lacking (ASound log) from run.now) (ASound log) result.journal }
    ensures appended { HasAppendedTo D.device (from + length run.now) (ASound log) result.journal result.stop }
{
    let front = log.front();
    if front >= from + run.len() as u64 {
        return Flushed {
            journal: Journal::Sound { log },
            stop: None,
        };
    }
    match log.append(&run[(front - from) as usize..]) {
        Ok(log) => Flushed {
            journal: Journal::Sound { log },
            stop: None,
        },
        Err(LogFault::Disk { disk }) => Flushed {
            journal: Journal::Spent { disk, front },
            stop: Some(Stop::Disk),
        },
        Err(LogFault::Memory { log }) => Flushed {
            journal: Journal::Sound { log },
            stop: Some(Stop::Memory),
        },
    }
}

// A piece after entries were to be appended, and why that was stopped, if it was.
pub(crate) struct Filed<D> {
    // The piece.
    pub(crate) piece: Piece<D>,
    // Why it was stopped.
    pub(crate) stop: Option<Stop>,
}

// The same of a file that lies in a piece: it may be given back by a seat that has read the run, and where its disk failed saw the flag raised.
pub(crate) fn appended<D: Disk>(piece: Piece<D>, from: u64, run: &[Edge]) -> Filed<D>
    requires { OnFile (CanAppendTo from run.now) piece }
    ensures gives { (f : Frame) (d : SeatView (APiece D)) (place : ℕ) → IsFilePlace f place → IsFileInHand D.device d place piece →
        HasRead from run.now d → (is_disk result.stop ≡ true → d.told.flagged ≡ true) →
        CanGive (meaning_of D.device) f d place piece result.piece }
    ensures appended { HasAppendedPiece D.device (from + length run.now) piece result.piece result.stop }
{
    match piece.into_journal() {
        Ok(journal) => {
            let Flushed { journal, stop } = append_to(journal, from, run);
            Filed {
                piece: Piece::file(journal),
                stop,
            }
        }
        Err(shard) => Filed {
            piece: shard,
            stop: None,
        },
    }
}
