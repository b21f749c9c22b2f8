// Reading a range of the entries of a journal.
ghost use Rattle.std.specs.Prelude.{◌≡◌, ◌≤◌, []};
ghost use Rattle.go_durable.specs.Journal.{journal_front, KeepsOn};
ghost use Rattle.go_durable.specs.JournalRanging.{HasRanged};

use crate::fault::LogFault;
use crate::journal::Journal;
use go_api::Stop;
use go_disk::Disk;
use go_word::Edge;

/// A journal after entries were to be read, and why that was stopped, if it was.
#[derive(Drop)]
pub struct Ranged<D> {
    pub journal: Journal<D>,
    pub stop: Option<Stop>,
}

impl<D: Disk> Journal<D> {
    /// Appends the entries from one place in the log up to another to `out`, read from the disk.
    ///
    /// A journal that was spent is stopped as by its disk, without a call of it. After each stop `out` is as it was.
    pub fn read_range(self, a: u64, b: u64, out: &mut Vec<Edge>) -> Ranged<D>
        requires order { a ≤ b }
        requires within { b ≤ journal_front self }
        ensures keeps { KeepsOn D.device [] self result.journal }
        ensures front { journal_front result.journal ≡ journal_front self }
        ensures read { HasRanged D.device (record { from = a; upto = b; before = out.old.items; after = out.new.items }) self result.journal
            result.stop }
    {
        let log = match self {
            Journal::Sound { log } => log,
            spent => {
                return Ranged {
                    journal: spent,
                    stop: Some(Stop::Disk),
                };
            }
        };
        let front = log.front();
        match log.read_range(a, b, out) {
            Ok(log) => Ranged {
                journal: Journal::Sound { log },
                stop: None,
            },
            Err(LogFault::Disk { disk }) => Ranged {
                journal: Journal::Spent { disk, front },
                stop: Some(Stop::Disk),
            },
            Err(LogFault::Memory { log }) => Ranged {
                journal: Journal::Sound { log },
                stop: Some(Stop::Memory),
            },
        }
    }
}
