// A log that is appended to until its disk fails.
ghost use Rattle.std.specs.Prelude.{◌≡◌, ℕ, List, length, drop};
ghost use Rattle.go_word.specs.declared.edge.Edge.{Edge};
ghost use Rattle.go_blocks.specs.File.{IsCount};
ghost use Rattle.go_durable.specs.Journal.{journal_disk, journal_front, Keeps, KeepsOn, CanAppend, HasFlushed, HasAppended};
ghost use Rattle.go_durable.specs.Finishing.{HasFinished};
ghost use Rattle.go_durable.specs.declared.journal.Journal.TheVariants.{Sound};

use crate::durable_log::DurableLog;
use crate::fault::LogFault;
use crate::finished::Finished;
use go_api::Stop;
use go_blocks::COUNT_LIMIT;
use go_disk::Disk;
use go_word::Edge;

/// A log that is appended to until its disk fails.
#[derive(Drop)]
pub enum Journal<D> {
    /// It goes on.
    Sound { log: DurableLog<D> },
    /// Its disk failed, and it takes no more entries. So many of the log are durable.
    Spent { disk: D, front: u64 },
}

/// A journal after entries were to be appended, and why that was stopped, if it was.
#[derive(Drop)]
pub struct Flushed<D> {
    pub journal: Journal<D>,
    pub stop: Option<Stop>,
}

impl<D: Disk> Journal<D> {
    /// How many entries of the log are durable.
    pub fn front(&self) -> u64
        ensures { result ≡ journal_front self.now }
    {
        match self {
            Journal::Sound { log } => log.front(),
            Journal::Spent { front, .. } => *front,
        }
    }

    /// Gives the disk back.
    pub fn into_disk(self) -> D
        ensures { result ≡ journal_disk self }
    {
        match self {
            Journal::Sound { log } => log.into_disk(),
            Journal::Spent { disk, .. } => disk,
        }
    }

    /// Appends entries in as few blocks as they take: full ones, and one for the rest.
    ///
    /// What was appended before it was stopped is durable.
    pub fn flush(self, edges: &[Edge]) -> Flushed<D>
        requires { CanAppend edges.now self }
        ensures keeps { KeepsOn D.device edges.now self result.journal }
        ensures flushed { HasFlushed edges.now self result.journal result.stop }
    {
        let mut log = match self {
            Journal::Sound { log } => log,
            spent => {
                return Flushed {
                    journal: spent,
                    stop: Some(Stop::Disk),
                };
            }
        };
        let mut rest = edges;
        while !rest.is_empty() {
            let (block, later) = rest.split_at(rest.len().min(COUNT_LIMIT as usize));
            match append_block(log, block) {
                Ok(longer) => log = longer,
                Err(flushed) => return flushed,
            }
            rest = later;
        }
        Flushed {
            journal: Journal::Sound { log },
            stop: None,
        }
    }

    /// Appends what the log has behind its durable entries, and gives the disk back.
    pub fn finish(self, edges: &[Edge]) -> Finished<D>
        requires { CanAppend edges.now self }
        ensures { (v first : ℕ) (log : List Edge) (opened : D) → Keeps D.device v first log opened self →
            edges.now ≡ drop (journal_front self) log → HasFinished D.device v first log opened self result }
    {
        let Flushed { journal, stop } = self.flush(edges);
        Finished {
            durable: journal.front(),
            disk: journal.into_disk(),
            stop,
        }
    }
}

// Appends one block.
fn append_block<D: Disk>(log: DurableLog<D>, block: &[Edge]) -> Result<DurableLog<D>, Flushed<D>>
    requires count { IsCount (length block.now) }
    requires can { CanAppend block.now (Sound log) }
    ensures { HasAppended D.device block.now log result }
{
    let front = log.front();
    match log.append(block) {
        Ok(longer) => Ok(longer),
        Err(LogFault::Disk { disk }) => Err(Flushed {
            journal: Journal::Spent { disk, front },
            stop: Some(Stop::Disk),
        }),
        Err(LogFault::Memory { log }) => Err(Flushed {
            journal: Journal::Sound { log },
            stop: Some(Stop::Memory),
        }),
    }
}
