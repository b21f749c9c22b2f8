// Small rings of pieces for the tests, puts, and turns of workers.
ghost use Rattle.std.specs.Prelude.{◌≡◌, ◌+◌, ◌^◌, ◌<◌, ◌≤◌, IfOk, min, true, length};
ghost use Rattle.go_word.specs.Log.{IsWithin};
ghost use Rattle.go_rule.specs.Steps.{IsAt};
ghost use Rattle.go_workers.specs.Samples.{HasNothing, MayArchive, HasShare, Owes};

use go_api::Stop;
use go_core::{Entry, ring_words};
use go_disk::MemDisk;
use go_durable::attach;
use go_piece::{Piece, lay_out};
use go_rule::{Key, Layout, Opened, Ring, Seat, claim, load_archived, load_durable, store};
use go_shard::empty_shards;
use go_word::{Edge, Edges};
use go_workers::{Turn, archive_turn, compact_all, flush_turn};
use std::alloc::{AllocError, Global};
use std::snapshot::Snapshot;
use std::sync::Wait;
use std::thread;
use std::thread::Threads;

/// A ring over eight vertices, with two shards and the file of a log without entries.
pub(crate) fn opened(
    alloc: Global,
    disk: MemDisk,
    slots: u64,
    quota: u64,
) -> Result<Opened<Piece<MemDisk>>, AllocError>
    requires slots { (0 < slots) × (slots ≤ 1024) }
    requires quota { quota < 2 ^ 31 }
    ensures at { IfOk result (λ o. IsAt o.ring.table.shared.table_id o.seat.table_id o.seat.me.0) }
    ensures nothing { IfOk result (λ o. HasNothing o.seat.me) }
    ensures sizes { IfOk result (λ o. (o.ring.shards ≡ 2) × (o.ring.slots ≡ slots) × (o.ring.table.shared.key.layout.vertices ≡ 8)) }
    ensures archiver { IfOk result (λ o. MayArchive 0 o.seat.me.0) }
    ensures flusher { IfOk result (λ o. o.seat.me.0.core.flushes ≡ true) }
    ensures share { IfOk result (λ o. HasShare quota (2 ^ 32) o.seat.me.0) }
    ensures about { IfOk result (λ o. o.seat.me.0.about.vertices ≡ 8) }
{
    let go_durable::Opened { log, edges } = match attach(alloc, disk, 8, 0) {
        Ok(found) => found,
        Err(_) => return Err(AllocError),
    };
    if edges.len() != 0 {
        return Err(AllocError);
    }
    let file = Piece::Log { log };
    let key = Key {
        layout: Layout {
            vertices: 8,
            ring: slots,
            shards: 2,
        },
        first: 0,
        quota,
        opened: Snapshot::of(&edges),
        file: Snapshot::of(&file),
    };
    let words = ring_words(alloc, 7, slots, 0)?;
    let shards = empty_shards(alloc, 2, 8)?;
    let laid = lay_out(shards, file, Vec::with_capacity(alloc, 3)?);
    let spare = Vec::with_capacity(alloc, 3)?;
    match Ring::open(alloc, &key, words.as_slice(), laid, spare) {
        Ok(opened) => Ok(opened),
        Err(refused) => {
            drop(refused);
            Err(AllocError)
        }
    }
}

// Whether there is room for the word that a seat owes, by loads of both fronts.
fn has_room(ring: &Ring<Piece<MemDisk>>, seat: &mut Seat<Piece<MemDisk>>, entry: Entry) -> bool
    requires at { IsAt ring.now.table.shared.table_id seat.old.table_id seat.old.me.0 }
    requires owes { Owes entry seat.old.me }
    requires small { entry.at < 2 ^ 32 }
    ensures at { IsAt ring.now.table.shared.table_id seat.new.table_id seat.new.me.0 }
    ensures owes { Owes entry seat.new.me }
    ensures share { seat.new.me.0.share ≡ seat.old.me.0.share }
    ensures room { result ≡ true → entry.at < ring.now.slots + min seat.new.me.0.core.archived seat.new.me.0.core.durable }
{
    let archived = load_archived(ring, seat);
    let durable = load_durable(ring, seat);
    entry.at < ring.slots + archived.min(durable)
}

/// Puts an edge, as soon as there is room for it.
pub(crate) fn put(ring: &Ring<Piece<MemDisk>>, seat: &mut Seat<Piece<MemDisk>>, edge: Edge) -> bool
    requires at { IsAt ring.now.table.shared.table_id seat.old.table_id seat.old.me.0 }
    requires nothing { HasNothing seat.old.me }
    requires quota { 1 ≤ seat.old.me.0.share.quota }
    requires ids { IsWithin 8 edge }
    requires vertices { ring.now.table.shared.key.layout.vertices ≡ 8 }
    ensures at { IsAt ring.now.table.shared.table_id seat.new.table_id seat.new.me.0 }
    ensures nothing { result ≡ true → HasNothing seat.new.me }
    ensures quota { seat.new.me.0.share.quota + 1 ≡ seat.old.me.0.share.quota }
{
    let at = claim(ring, seat, &[edge]);
    let entry = Entry { at, edge };
    let mut left = u64::MAX;
    while left > 0 {
        if has_room(ring, seat, entry) {
            store(ring, seat, entry);
            return true;
        }
        thread::yield_now();
        left -= 1;
    }
    false
}

/// Puts an edge so often.
pub(crate) fn put_many(
    ring: &Ring<Piece<MemDisk>>,
    seat: &mut Seat<Piece<MemDisk>>,
    count: u64,
    edge: Edge,
) -> bool
    requires at { IsAt ring.now.table.shared.table_id seat.old.table_id seat.old.me.0 }
    requires nothing { HasNothing seat.old.me }
    requires quota { count ≤ seat.old.me.0.share.quota }
    requires ids { IsWithin 8 edge }
    requires vertices { ring.now.table.shared.key.layout.vertices ≡ 8 }
    ensures at { IsAt ring.now.table.shared.table_id seat.new.table_id seat.new.me.0 }
    ensures nothing { result ≡ true → HasNothing seat.new.me }
    ensures quota { result ≡ true → seat.new.me.0.share.quota + count ≡ seat.old.me.0.share.quota }
{
    let mut done = 0;
    while done < count {
        if !put(ring, seat, edge) {
            return false;
        }
        done += 1;
    }
    true
}

/// A turn of the archiver, with room for 128 entries.
pub(crate) fn archive<R: Threads + Wait + Sync>(
    rt: &R,
    alloc: Global,
    ring: &Ring<Piece<MemDisk>>,
    seat: &mut Seat<Piece<MemDisk>>,
    buf: &mut [Edge],
    lists: &mut Vec<Edges>,
) -> Result<Turn, AllocError>
    requires at { IsAt ring.now.table.shared.table_id seat.old.table_id seat.old.me.0 }
    requires nothing { HasNothing seat.old.me }
    requires shards { ring.now.shards ≡ 2 }
    requires long { length buf.old ≡ 128 }
    requires archiver { MayArchive 128 seat.old.me.0 }
    ensures at { IsAt ring.now.table.shared.table_id seat.new.table_id seat.new.me.0 }
    ensures nothing { HasNothing seat.new.me }
    ensures long { length buf.new ≡ 128 }
    ensures archiver { MayArchive 128 seat.new.me.0 }
{
    archive_turn(rt, alloc, ring, seat, buf, lists)
}

/// A turn of the flusher.
pub(crate) fn flush<R: Wait>(
    rt: &R,
    ring: &Ring<Piece<MemDisk>>,
    seat: &mut Seat<Piece<MemDisk>>,
    buf: &mut [Edge],
) -> Result<Turn, Stop>
    requires at { IsAt ring.now.table.shared.table_id seat.old.table_id seat.old.me.0 }
    requires nothing { HasNothing seat.old.me }
    requires shards { ring.now.shards ≡ 2 }
    requires long { length buf.old ≡ 128 }
    requires flusher { seat.old.me.0.core.flushes ≡ true }
    ensures at { IsAt ring.now.table.shared.table_id seat.new.table_id seat.new.me.0 }
    ensures nothing { HasNothing seat.new.me }
    ensures long { length buf.new ≡ 128 }
    ensures flusher { seat.new.me.0.core.flushes ≡ true }
{
    flush_turn(rt, ring, seat, buf)
}

/// Compacts both shards: whether there was memory.
pub(crate) fn compact<R: Wait>(
    rt: &R,
    ring: &Ring<Piece<MemDisk>>,
    seat: &mut Seat<Piece<MemDisk>>,
) -> bool
    requires at { IsAt ring.now.table.shared.table_id seat.old.table_id seat.old.me.0 }
    requires shards { ring.now.shards ≡ 2 }
    ensures at { IsAt ring.now.table.shared.table_id seat.new.table_id seat.new.me.0 }
{
    compact_all(rt, ring, seat).is_ok()
}
