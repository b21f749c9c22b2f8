// A small ring for the tests, and a seat of it for a session.
ghost use Rattle.std.specs.Prelude.{◌≡◌, ◌<◌, ◌≤◌, ◌^◌, IfOk};
ghost use Rattle.go_rule.specs.Steps.{IsAt};
ghost use Rattle.go_live.specs.Handles.{IsNewSeat};
ghost use Rattle.go_live.specs.Samples.{IsSample};

use go_core::ring_words;
use go_disk::MemDisk;
use go_durable::attach;
use go_piece::{Piece, lay_out};
use go_ring::RingCalls;
use go_rule::{Key, Layout, Opened, Ring, Seat};
use go_shard::empty_shards;
use std::alloc::{AllocError, Global};
use std::snapshot::Snapshot;

// A ring of 128 slots over eight vertices, with two shards and the file of a log without entries, by which 1,000 entries may be put.
pub(crate) fn opened(alloc: Global) -> Result<Opened<Piece<MemDisk>>, AllocError>
    ensures at { IfOk result (λ o. IsAt o.ring.table.shared.table_id o.seat.table_id o.seat.me.0) }
    ensures sample { IfOk result (λ o. IsSample o.ring.table.shared.key o.seat.me.0) }
    ensures share { IfOk result (λ o. (o.seat.me.0.share.quota ≡ 1000) × (o.seat.me.0.share.lot ≡ 2 ^ 32)) }
{
    let disk = MemDisk::new(alloc, b"", 1000)?;
    let go_durable::Opened { log, edges } = match attach(alloc, disk, 8, 0) {
        Ok(found) => found,
        Err(_) => return Err(AllocError),
    };
    if edges.len() != 0 {
        return Err(AllocError);
    }
    let file = Piece::Log { log };
    let key = Key {
        layout: Layout {
            vertices: 8,
            ring: 128,
            shards: 2,
        },
        first: 0,
        quota: 1000,
        opened: Snapshot::of(&edges),
        file: Snapshot::of(&file),
    };
    let words = ring_words(alloc, 7, 128, 0)?;
    let shards = empty_shards(alloc, 2, 8)?;
    let laid = lay_out(shards, file, Vec::with_capacity(alloc, 3)?);
    let spare = Vec::with_capacity(alloc, 3)?;
    match Ring::open(alloc, &key, words.as_slice(), laid, spare) {
        Ok(opened) => Ok(opened),
        Err(refused) => {
            drop(refused);
            Err(AllocError)
        }
    }
}

// A seat for a session, which may put so many entries.
pub(crate) fn new_seat(
    ring: &Ring<Piece<MemDisk>>,
    root: &mut Seat<Piece<MemDisk>>,
    quota: u64,
) -> Seat<Piece<MemDisk>>
    requires at { IsAt ring.now.table.shared.table_id root.old.table_id root.old.me.0 }
    requires sample { IsSample ring.now.table.shared.key root.old.me.0 }
    requires quota { quota ≤ root.old.me.0.share.quota }
    requires lot { 1 < root.old.me.0.share.lot }
    ensures new { IsNewSeat ring.now.table.shared.table_id ring.now.table.shared.key 0 8 result }
    ensures quota { result.me.0.share.quota ≡ quota }
{
    ring.split(root, quota, 1)
}
