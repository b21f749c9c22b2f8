// A store of several sessions by turns, over a disk.
ghost use Rattle.std.specs.Prelude.{◌≡◌};
ghost use Rattle.go_plain.specs.Plain.{HasEnded};

use crate::body::Body;
use go_disk::Disk;
use go_durable::Finished;
use std::marker::Model;

/// A log on a disk, with its newest entries in a ring and its older ones in shards, which some sessions write by turns.
///
/// It lies in a box, so that a session is handed a pointer.
#[derive(Drop)]
pub struct PlainStore<D: Disk> {
    pub(crate) body: Box<Body<D>>,
}

impl<D: Disk> Model for PlainStore<D> {
    ghost use Rattle.go_plain.specs.Plain.{PlainState};

    ghost Value = { PlainState D };

    ghost view = { λ store. store.body.value };
}

impl<D: Disk> PlainStore<D> {
    /// Appends to the log file what it lacks, and gives the disk back.
    pub fn finish(self) -> Finished<D>
        ensures { HasEnded D.device self result }
    {
        Box::into_inner(self.body).finish()
    }
}
