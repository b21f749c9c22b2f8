// A piece of what left the ring: a shard, or the log's file.
ghost use Rattle.std.specs.Prelude.{◌≡◌, ◌↔◌, IsTrue};
ghost use Rattle.go_piece.specs.Pieces.{file_of, IsJournalOf, HasFailed};

use go_core::Part;
use go_disk::Disk;
use go_durable::{DurableLog, Journal};
use go_shard::Shard;

/// A piece of what left the ring, which threads take in turns.
#[derive(Drop)]
pub enum Piece<D> {
    /// The older entries of some vertices.
    Shard { shard: Shard },
    /// The log on its disk.
    Log { log: DurableLog<D> },
    /// The disk of a log, which failed, and how many entries of the log were durable by then. It takes no more.
    Spent { disk: D, front: u64 },
}

impl<D> Piece<D> {
    /// The log's file as a piece.
    pub fn file(journal: Journal<D>) -> Piece<D>
        ensures { result ≡ file_of journal }
    {
        match journal {
            Journal::Sound { log } => Piece::Log { log },
            Journal::Spent { disk, front } => Piece::Spent { disk, front },
        }
    }

    /// The log's file that a piece is, or the piece where it is a shard.
    pub fn into_journal(self) -> Result<Journal<D>, Piece<D>>
        ensures { IsJournalOf self result }
    {
        match self {
            Piece::Shard { shard } => Err(Piece::Shard { shard }),
            Piece::Log { log } => Ok(Journal::Sound { log }),
            Piece::Spent { disk, front } => Ok(Journal::Spent { disk, front }),
        }
    }

    /// Whether its disk failed.
    pub fn has_failed(&self) -> bool
        ensures { IsTrue result ↔ HasFailed self.now }
    {
        matches!(self, Piece::Spent { .. })
    }
}

impl<D: Disk> Part for Piece<D> {
    ghost use Rattle.go_piece.specs.Pieces.{state_in, StandsFor, Fits, KeepsFront, mark_in, HasLeft};
    ghost use Rattle.go_piece.specs.Laws.{stands_longer, left_longer};

    ghost state_of = { state_in };

    ghost stands_for = { StandsFor D.device };

    ghost fits = { Fits D.device };

    ghost keeps = { KeepsFront };

    ghost is_spent = { HasFailed };

    ghost mark_of = { mark_in D.device };

    ghost recovers = { HasLeft D.device };

    fn front(&self) -> u64 {
        match self {
            Piece::Shard { shard } => shard.front(),
            Piece::Log { log } => log.front(),
            Piece::Spent { front, .. } => *front,
        }
    }

    ghost stands_on = { stands_longer D.device };

    ghost recovers_on = { left_longer D.device };
}
