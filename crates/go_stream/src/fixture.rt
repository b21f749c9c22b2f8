// What the tests share: log files, rings over them, puts, and streams.
ghost use Rattle.std.specs.Prelude.{◌≡◌, ◌+◌, ◌<◌, ◌≤◌, ◌^◌, [], IfOk, All, length};
ghost use Rattle.go_word.specs.Log.{IsWithin};
ghost use Rattle.go_word.specs.declared.word.TheConstants.{ID_LIMIT};
ghost use Rattle.go_rule.specs.Steps.{IsAt};
ghost use Rattle.go_shard.specs.Parts.{HaveParts};

use crate::LiveStream;
use go_api::{Span, Stop};
use go_core::ring_words;
use go_disk::MemDisk;
use go_durable::{DurableLog, attach};
use go_piece::{Piece, lay_out};
use go_ring::{Fill, RingCalls};
use go_rule::{Key, Layout, Ring, Seat};
use go_shard::{Shard, catch_up, empty_shards};
use go_word::Edge;
use std::alloc::{AllocError, Global};
use std::snapshot::Snapshot;
use std::sync::Wait;
use std::test::Fail;

// How many entries the first seat of a ring may put.
pub(crate) const QUOTA: u64 = 10_000;

// A ring of the tests, its first seat, and how many entries were in the file as it was made.
#[derive(Drop)]
pub(crate) struct Begun {
    pub ring: Ring<Piece<MemDisk>>,
    pub seat: Seat<Piece<MemDisk>>,
    pub front: u64,
}

// The entry that the tests have at a position.
pub(crate) fn edge(at: u64) -> Edge
    ensures within { IsWithin 8 result }
{
    Edge {
        del: false,
        src: (at % 8) as u32,
        dst: (at / 8 % 8) as u32,
    }
}

// Whether these are the entries from a position on.
pub(crate) fn are_from(list: &[Edge], from: u64) -> bool {
    let mut at = from;
    for entry in list {
        if *entry != edge(at) {
            return false;
        }
        at = at.wrapping_add(1);
    }
    true
}

// Appends an entry as a block of its own.
fn append(log: DurableLog<MemDisk>, entry: Edge) -> Result<DurableLog<MemDisk>, Fail>
    requires { IsWithin 8 entry }
{
    if log.front() > 1000 || log.vertices() != 8 {
        return Err(Fail::new("another log"));
    }
    match log.append(&[entry]) {
        Ok(log) => Ok(log),
        Err(_) => Err(Fail::new("not appended")),
    }
}

// The bytes of a file of so many entries, each in a block of its own.
pub(crate) fn file_of(alloc: Global, count: u64) -> Result<Vec<u8>, Fail> {
    let disk = MemDisk::new(alloc, b"", 100_000)?;
    let Ok(go_durable::Opened { mut log, edges: _ }) = attach(alloc, disk, 8, 10) else {
        return Err(Fail::new("not attached"));
    };
    for at in 0..count {
        log = append(log, edge(at))?;
    }
    let mut bytes = Vec::new(alloc);
    log.into_disk().image(1, &mut bytes)?;
    Ok(bytes)
}

// The shard of a ring of the tests, with all entries of its log.
fn shards_of(alloc: Global, edges: &[Edge]) -> Result<Vec<Shard>, AllocError>
    requires ids { All (IsWithin 8) edges.now }
    requires small { length edges.now < 2 ^ 32 }
    ensures { IfOk result (λ shards. HaveParts 8 1 (length edges.now) [] edges.now shards.items) }
{
    let mut shards = empty_shards(alloc, 1, 8)?;
    catch_up(alloc, &mut shards, edges, 0, &[])?;
    Ok(shards)
}

// A ring of so many slots over the file of a disk, from its end on.
pub(crate) fn opened(alloc: Global, disk: MemDisk, slots: u64) -> Result<Begun, AllocError>
    requires slots { (0 < slots) × (slots ≤ 8192) }
    ensures ring { IfOk result (λ b. b.ring.table.shared.key.layout.ring ≡ slots) }
    ensures shards { IfOk result (λ b. b.ring.table.shared.key.layout.shards ≡ 1) }
    ensures vertices { IfOk result (λ b. b.ring.table.shared.key.layout.vertices ≡ 8) }
    ensures shares { IfOk result (λ b. (b.seat.me.0.share.quota ≡ 10000) × (b.seat.me.0.share.lot ≡ 2 ^ 32)) }
    ensures at { IfOk result (λ b. IsAt b.ring.table.shared.table_id b.seat.table_id b.seat.me.0) }
    ensures seen { IfOk result (λ b. b.front ≤ b.seat.me.0.core.seen) }
    ensures ids { IfOk result (λ b. b.seat.me.0.about.vertices ≤ ID_LIMIT) }
{
    let go_durable::Opened { log, edges } = match attach(alloc, disk, 8, 1000) {
        Ok(found) => found,
        Err(_) => return Err(AllocError),
    };
    if edges.len() > 1000 {
        return Err(AllocError);
    }
    let front = edges.len() as u64;
    let shards = shards_of(alloc, &edges)?;
    let file = Piece::Log { log };
    let key = Key {
        layout: Layout {
            vertices: 8,
            ring: slots,
            shards: 1,
        },
        first: front,
        quota: QUOTA,
        opened: Snapshot::of(&edges),
        file: Snapshot::of(&file),
    };
    let words = ring_words(alloc, 6, slots, front)?;
    let slots = lay_out(shards, file, Vec::with_capacity(alloc, 2)?);
    let spare = Vec::with_capacity(alloc, 2)?;
    match Ring::open(alloc, &key, words.as_slice(), slots, spare) {
        Ok(go_rule::Opened { ring, seat }) => Ok(Begun { ring, seat, front }),
        Err(refused) => {
            drop(refused);
            Err(AllocError)
        }
    }
}

// Puts an entry, or gives it up where its slot isn't free, with the flag up.
pub(crate) fn put(ring: &Ring<Piece<MemDisk>>, seat: &mut Seat<Piece<MemDisk>>, entry: Edge) -> bool
    requires at { IsAt ring.now.table.shared.table_id seat.old.table_id seat.old.me.0 }
    requires within { IsWithin 8 entry }
    requires vertices { ring.now.table.shared.key.layout.vertices ≡ 8 }
    requires quota { 1 ≤ seat.old.me.0.share.quota }
    ensures at { IsAt ring.now.table.shared.table_id seat.new.table_id seat.new.me.0 }
    ensures quota { seat.new.me.0.share.quota + 1 ≡ seat.old.me.0.share.quota }
{
    let claim = ring.claim(seat, &[entry]);
    match ring.fill(seat, claim) {
        Fill::Done { position: _ } => true,
        Fill::Held { claim, released: _ } => {
            ring.raise(seat, Stop::Memory);
            ring.abandon(seat, claim);
            false
        }
    }
}

// An update of a stream, which may be updated again then.
pub(crate) fn next<R: Wait>(
    rt: &R,
    ring: &Ring<Piece<MemDisk>>,
    seat: &mut Seat<Piece<MemDisk>>,
    stream: &mut LiveStream,
    buf: &mut [u64],
    max: u32,
    floor: u64,
    out: &mut Vec<Edge>,
) -> Result<Span, Stop>
    requires at { IsAt ring.now.table.shared.table_id seat.old.table_id seat.old.me.0 }
    requires seen { stream.old.cursor ≤ seat.old.me.0.core.seen }
    requires ids { seat.old.me.0.about.vertices ≤ ID_LIMIT }
    requires room { length buf.old ≡ ring.now.table.shared.key.layout.ring }
    requires shards { ring.now.table.shared.key.layout.shards ≡ 1 }
    requires some { 1 ≤ max }
    ensures at { IsAt ring.now.table.shared.table_id seat.new.table_id seat.new.me.0 }
    ensures seen { stream.new.cursor ≤ seat.new.me.0.core.seen }
    ensures ids { seat.new.me.0.about.vertices ≤ ID_LIMIT }
    ensures long { length buf.new ≡ length buf.old }
{
    stream.update(rt, ring, seat, buf, max, floor, out)
}
