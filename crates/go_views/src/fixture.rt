// Small rings for the tests, puts, and what is done with views of them.
ghost use Rattle.std.specs.Prelude.{◌≡◌, ◌+◌, ◌<◌, ◌≤◌, ◌^◌, IfOk, length, true};
ghost use Rattle.go_word.specs.Log.{IsWithin};
ghost use Rattle.go_rule.specs.Steps.{IsAt};
ghost use Rattle.go_views.specs.Samples.{AreApart};
ghost use Rattle.go_views.specs.Views.{View, IsView};

use crate::{LiveView, take_view};
use go_api::Stop;
use go_core::ring_words;
use go_disk::MemDisk;
use go_durable::attach;
use go_piece::{Piece, lay_out};
use go_ring::{Fill, RingCalls};
use go_rule::{Key, Layout, Opened, Ring, Seat};
use go_shard::empty_shards;
use go_turns::{give, take};
use go_word::{Edge, neighbours_of};
use std::alloc::{AllocError, Global};
use std::snapshot::Snapshot;
use std::sync::Wait;
use std::test::Fail;

// How many entries the first seat of a ring may put.
pub(crate) const QUOTA: u64 = 1000;

// The entry that the tests have at a position: of each seven one is a deletion.
pub(crate) fn edge(at: u64) -> Edge
    ensures within { IsWithin 8 result }
{
    Edge {
        del: at % 7 == 6,
        src: (at % 4) as u32,
        dst: (at / 4 % 3) as u32,
    }
}

// The entries of the first so many positions.
pub(crate) fn edges_to(alloc: Global, count: u64) -> Result<Vec<Edge>, AllocError> {
    let mut edges = Vec::new(alloc);
    for at in 0..count {
        edges.push(edge(at))?;
    }
    Ok(edges)
}

// A ring of so many slots over eight vertices, with two shards and the file of a log without entries.
pub(crate) fn opened(alloc: Global, slots: u64) -> Result<Opened<Piece<MemDisk>>, AllocError>
    requires slots { (0 < slots) × (slots ≤ 1024) }
    ensures at { IfOk result (λ o. IsAt o.ring.table.shared.table_id o.seat.table_id o.seat.me.0) }
    ensures sizes { IfOk result (λ o. (o.ring.shards ≡ 2) × (o.ring.slots ≡ slots) × (o.ring.table.shared.key.layout.vertices ≡ 8)) }
    ensures share { IfOk result (λ o. (o.seat.me.0.share.quota ≡ 1000) × (o.seat.me.0.share.lot ≡ 2 ^ 32)) }
    ensures about { IfOk result (λ o. o.seat.me.0.about.vertices ≡ 8) }
{
    let disk = MemDisk::new(alloc, b"", 1000)?;
    let go_durable::Opened { log, edges } = match attach(alloc, disk, 8, 0) {
        Ok(found) => found,
        Err(_) => return Err(AllocError),
    };
    if edges.len() != 0 {
        return Err(AllocError);
    }
    let file = Piece::Log { log };
    let key = Key {
        layout: Layout {
            vertices: 8,
            ring: slots,
            shards: 2,
        },
        first: 0,
        quota: QUOTA,
        opened: Snapshot::of(&edges),
        file: Snapshot::of(&file),
    };
    let words = ring_words(alloc, 7, slots, 0)?;
    let shards = empty_shards(alloc, 2, 8)?;
    let laid = lay_out(shards, file, Vec::with_capacity(alloc, 3)?);
    let spare = Vec::with_capacity(alloc, 3)?;
    match Ring::open(alloc, &key, words.as_slice(), laid, spare) {
        Ok(opened) => Ok(opened),
        Err(refused) => {
            drop(refused);
            Err(AllocError)
        }
    }
}

// Puts an entry, or gives it up where its slot isn't free, with the flag up.
fn put(ring: &Ring<Piece<MemDisk>>, seat: &mut Seat<Piece<MemDisk>>, entry: Edge) -> bool
    requires at { IsAt ring.now.table.shared.table_id seat.old.table_id seat.old.me.0 }
    requires within { IsWithin 8 entry }
    requires vertices { ring.now.table.shared.key.layout.vertices ≡ 8 }
    requires quota { 1 ≤ seat.old.me.0.share.quota }
    ensures at { IsAt ring.now.table.shared.table_id seat.new.table_id seat.new.me.0 }
    ensures quota { seat.new.me.0.share.quota + 1 ≡ seat.old.me.0.share.quota }
{
    let claim = ring.claim(seat, &[entry]);
    match ring.fill(seat, claim) {
        Fill::Done { position: _ } => true,
        Fill::Held { claim, released: _ } => {
            ring.raise(seat, Stop::Memory);
            ring.abandon(seat, claim);
            false
        }
    }
}

// Puts the entries from a position on up to another.
pub(crate) fn put_all(
    ring: &Ring<Piece<MemDisk>>,
    seat: &mut Seat<Piece<MemDisk>>,
    from: u64,
    to: u64,
) -> bool
    requires at { IsAt ring.now.table.shared.table_id seat.old.table_id seat.old.me.0 }
    requires vertices { ring.now.table.shared.key.layout.vertices ≡ 8 }
    requires quota { to ≤ from + seat.old.me.0.share.quota }
    ensures at { IsAt ring.now.table.shared.table_id seat.new.table_id seat.new.me.0 }
    ensures quota { from ≤ to → result ≡ true → seat.new.me.0.share.quota + to ≡ seat.old.me.0.share.quota + from }
{
    for at in from..to {
        if !put(ring, seat, edge(at)) {
            return false;
        }
    }
    true
}

// Takes a view, which stays one of its seat's beside those that this had.
pub(crate) fn taken<R: Wait>(
    rt: &R,
    alloc: Global,
    ring: &Ring<Piece<MemDisk>>,
    seat: &mut Seat<Piece<MemDisk>>,
    buf: &mut [u64],
    floor: u64,
) -> Result<LiveView, Stop>
    requires at { IsAt ring.now.table.shared.table_id seat.old.table_id seat.old.me.0 }
    requires room { length buf.old ≡ ring.now.slots }
    requires shards { ring.now.shards ≡ 2 }
    requires vertices { seat.old.me.0.about.vertices ≡ 8 }
    ensures at { IsAt ring.now.table.shared.table_id seat.new.table_id seat.new.me.0 }
    ensures long { length buf.new ≡ length buf.old }
    ensures vertices { seat.new.me.0.about.vertices ≡ 8 }
    ensures view { IfOk result (λ view. IsView 2 view seat.new.me.0) }
    ensures others { (view : View) → IsView 2 view seat.old.me.0 → IsView 2 view seat.new.me.0 }
    ensures apart { (view : View) → IsView 2 view seat.old.me.0 → IfOk result (AreApart view) }
{
    take_view(rt, alloc, ring, seat, buf, floor)
}

// Two views of one seat.
pub(crate) struct Two {
    pub first: LiveView,
    pub second: LiveView,
}

// Puts entries up to a position, takes a view, puts more up to another, and takes a second view.
pub(crate) fn two_taken<R: Wait>(
    rt: &R,
    alloc: Global,
    ring: &Ring<Piece<MemDisk>>,
    writer: &mut Seat<Piece<MemDisk>>,
    reader: &mut Seat<Piece<MemDisk>>,
    first: u64,
    second: u64,
) -> Result<Two, Fail>
    requires writer_at { IsAt ring.now.table.shared.table_id writer.old.table_id writer.old.me.0 }
    requires quota { (first ≤ second) × (second ≤ writer.old.me.0.share.quota) }
    requires reader_at { IsAt ring.now.table.shared.table_id reader.old.table_id reader.old.me.0 }
    requires sizes { (ring.now.shards ≡ 2) × (ring.now.slots ≡ 32) × (ring.now.table.shared.key.layout.vertices ≡ 8) }
    requires vertices { reader.old.me.0.about.vertices ≡ 8 }
    ensures at { IsAt ring.now.table.shared.table_id reader.new.table_id reader.new.me.0 }
    ensures vertices { reader.new.me.0.about.vertices ≡ 8 }
    ensures first { IfOk result (λ two. IsView 2 two.first reader.new.me.0) }
    ensures second { IfOk result (λ two. IsView 2 two.second reader.new.me.0) }
    ensures apart { IfOk result (λ two. AreApart two.first two.second) }
{
    let mut buf = [0; 32];
    if !put_all(ring, writer, 0, first) {
        return Err(Fail::new("not put"));
    }
    let Ok(one) = taken(rt, alloc, ring, reader, &mut buf, first) else {
        return Err(Fail::new("no first view"));
    };
    if !put_all(ring, writer, first, second) {
        return Err(Fail::new("not put"));
    }
    let Ok(other) = taken(rt, alloc, ring, reader, &mut buf, second) else {
        return Err(Fail::new("no second view"));
    };
    Ok(Two {
        first: one,
        second: other,
    })
}

// Releases a view; those with other names stay.
pub(crate) fn released<R: Wait>(
    rt: &R,
    ring: &Ring<Piece<MemDisk>>,
    seat: &mut Seat<Piece<MemDisk>>,
    view: LiveView,
)
    requires at { IsAt ring.now.table.shared.table_id seat.old.table_id seat.old.me.0 }
    requires shards { ring.now.shards ≡ 2 }
    requires vertices { seat.old.me.0.about.vertices ≡ 8 }
    requires view { IsView 2 view seat.old.me.0 }
    ensures at { IsAt ring.now.table.shared.table_id seat.new.table_id seat.new.me.0 }
    ensures vertices { seat.new.me.0.about.vertices ≡ 8 }
    ensures others { (other : View) → AreApart other view → IsView 2 other seat.old.me.0 → IsView 2 other seat.new.me.0 }
{
    view.release(rt, ring, seat);
}

// Whether a view has these entries: by the degree and the neighbours of each vertex.
pub(crate) fn shows<R: Wait>(
    rt: &R,
    alloc: Global,
    ring: &Ring<Piece<MemDisk>>,
    seat: &mut Seat<Piece<MemDisk>>,
    view: &LiveView,
    edges: &[Edge],
) -> Result<bool, AllocError>
    requires at { IsAt ring.now.table.shared.table_id seat.old.table_id seat.old.me.0 }
    requires shards { ring.now.shards ≡ 2 }
    requires vertices { seat.old.me.0.about.vertices ≡ 8 }
    requires view { IsView 2 view.now seat.old.me.0 }
    ensures at { IsAt ring.now.table.shared.table_id seat.new.table_id seat.new.me.0 }
    ensures vertices { seat.new.me.0.about.vertices ≡ 8 }
    ensures others { (view : View) → IsView 2 view seat.old.me.0 → IsView 2 view seat.new.me.0 }
{
    let mut found = Vec::new(alloc);
    let mut wanted = Vec::new(alloc);
    let mut all = view.front() == edges.len() as u64;
    for v in 0..8 {
        view.neighbours(rt, alloc, ring, seat, v, &mut found)?;
        neighbours_of(edges, v, &mut wanted)?;
        let degree = edges.iter().filter(|edge| edge.src == v).count();
        all = all && found.as_slice() == wanted.as_slice() && view.raw_degree(v) as usize == degree;
    }
    Ok(all)
}

// The least name that no pin of the shard of a place has; 0 where it has none.
fn free_name<R: Wait>(
    rt: &R,
    ring: &Ring<Piece<MemDisk>>,
    seat: &mut Seat<Piece<MemDisk>>,
    place: u32,
) -> u64
    requires at { IsAt ring.now.table.shared.table_id seat.old.table_id seat.old.me.0 }
    requires shards { ring.now.shards ≡ 2 }
    requires place { place < 2 }
    requires vertices { seat.old.me.0.about.vertices ≡ 8 }
    ensures at { IsAt ring.now.table.shared.table_id seat.new.table_id seat.new.me.0 }
    ensures vertices { seat.new.me.0.about.vertices ≡ 8 }
    ensures others { (view : View) → IsView 2 view seat.old.me.0 → IsView 2 view seat.new.me.0 }
{
    let hold = take(rt, ring, seat, place);
    let name = match hold.part() {
        Piece::Shard { shard } => shard.free_pin(),
        _ => u64::MAX,
    };
    give(ring, seat, hold);
    name
}

// Whether the least free names of both shards are this one: so many pins stand in each.
pub(crate) fn have_pins<R: Wait>(
    rt: &R,
    ring: &Ring<Piece<MemDisk>>,
    seat: &mut Seat<Piece<MemDisk>>,
    count: u64,
) -> bool
    requires at { IsAt ring.now.table.shared.table_id seat.old.table_id seat.old.me.0 }
    requires shards { ring.now.shards ≡ 2 }
    requires vertices { seat.old.me.0.about.vertices ≡ 8 }
    ensures at { IsAt ring.now.table.shared.table_id seat.new.table_id seat.new.me.0 }
    ensures vertices { seat.new.me.0.about.vertices ≡ 8 }
    ensures others { (view : View) → IsView 2 view seat.old.me.0 → IsView 2 view seat.new.me.0 }
{
    let first = free_name(rt, ring, seat, 0);
    let second = free_name(rt, ring, seat, 1);
    first == count && second == count
}
