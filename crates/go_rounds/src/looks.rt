// Views of the tests' rings.
ghost use Rattle.std.specs.Prelude.{◌≡◌, ◌<◌, IfOk, length};
ghost use Rattle.go_rule.specs.Steps.{IsAt};
ghost use Rattle.go_views.specs.Samples.{AreApart};
ghost use Rattle.go_views.specs.Views.{View, IsView};

use go_api::Stop;
use go_disk::MemDisk;
use go_piece::Piece;
use go_rule::{Ring, Seat};
use go_views::{LiveView, take_view};
use go_word::{Edge, neighbours_of};
use std::alloc::{AllocError, Global};
use std::sync::Wait;

/// Takes a view beside those that its seat has.
pub(crate) fn taken<R: Wait>(
    rt: &R,
    alloc: Global,
    ring: &Ring<Piece<MemDisk>>,
    seat: &mut Seat<Piece<MemDisk>>,
    buf: &mut [u64],
    floor: u64,
) -> Result<LiveView, Stop>
    requires at { IsAt ring.now.table.shared.table_id seat.old.table_id seat.old.me.0 }
    requires room { length buf.old ≡ ring.now.slots }
    requires shards { ring.now.shards ≡ 2 }
    requires vertices { seat.old.me.0.about.vertices ≡ 8 }
    ensures at { IsAt ring.now.table.shared.table_id seat.new.table_id seat.new.me.0 }
    ensures long { length buf.new ≡ length buf.old }
    ensures vertices { seat.new.me.0.about.vertices ≡ 8 }
    ensures view { IfOk result (λ view. IsView 2 view seat.new.me.0) }
    ensures others { (view : View) → IsView 2 view seat.old.me.0 → IsView 2 view seat.new.me.0 }
    ensures apart { (view : View) → IsView 2 view seat.old.me.0 → IfOk result (AreApart view) }
{
    take_view(rt, alloc, ring, seat, buf, floor)
}

/// The neighbours of a vertex that a view has.
pub(crate) fn neighbours<R: Wait>(
    rt: &R,
    alloc: Global,
    ring: &Ring<Piece<MemDisk>>,
    seat: &mut Seat<Piece<MemDisk>>,
    view: &LiveView,
    v: u32,
    out: &mut Vec<u32>,
) -> Result<(), AllocError>
    requires at { IsAt ring.now.table.shared.table_id seat.old.table_id seat.old.me.0 }
    requires shards { ring.now.shards ≡ 2 }
    requires vertices { seat.old.me.0.about.vertices ≡ 8 }
    requires view { IsView 2 view.now seat.old.me.0 }
    requires below { v < 8 }
    ensures at { IsAt ring.now.table.shared.table_id seat.new.table_id seat.new.me.0 }
    ensures vertices { seat.new.me.0.about.vertices ≡ 8 }
    ensures others { (view : View) → IsView 2 view seat.old.me.0 → IsView 2 view seat.new.me.0 }
{
    view.neighbours(rt, alloc, ring, seat, v, out)
}

/// Whether a view has these entries: by the degree and the neighbours of each vertex.
pub(crate) fn shows<R: Wait>(
    rt: &R,
    alloc: Global,
    ring: &Ring<Piece<MemDisk>>,
    seat: &mut Seat<Piece<MemDisk>>,
    view: &LiveView,
    edges: &[Edge],
) -> Result<bool, AllocError>
    requires at { IsAt ring.now.table.shared.table_id seat.old.table_id seat.old.me.0 }
    requires shards { ring.now.shards ≡ 2 }
    requires vertices { seat.old.me.0.about.vertices ≡ 8 }
    requires view { IsView 2 view.now seat.old.me.0 }
    ensures at { IsAt ring.now.table.shared.table_id seat.new.table_id seat.new.me.0 }
    ensures vertices { seat.new.me.0.about.vertices ≡ 8 }
    ensures others { (other : View) → IsView 2 other seat.old.me.0 → IsView 2 other seat.new.me.0 }
{
    let mut found = Vec::new(alloc);
    let mut wanted = Vec::new(alloc);
    let mut all = view.front() == edges.len() as u64;
    for v in 0..8 {
        view.neighbours(rt, alloc, ring, seat, v, &mut found)?;
        neighbours_of(edges, v, &mut wanted)?;
        let degree = edges.iter().filter(|edge| edge.src == v).count();
        all = all && found.as_slice() == wanted.as_slice() && view.raw_degree(v) as usize == degree;
    }
    Ok(all)
}

/// Releases a view; those with other names stay.
pub(crate) fn released<R: Wait>(
    rt: &R,
    ring: &Ring<Piece<MemDisk>>,
    seat: &mut Seat<Piece<MemDisk>>,
    view: LiveView,
)
    requires at { IsAt ring.now.table.shared.table_id seat.old.table_id seat.old.me.0 }
    requires shards { ring.now.shards ≡ 2 }
    requires vertices { seat.old.me.0.about.vertices ≡ 8 }
    requires view { IsView 2 view seat.old.me.0 }
    ensures at { IsAt ring.now.table.shared.table_id seat.new.table_id seat.new.me.0 }
    ensures vertices { seat.new.me.0.about.vertices ≡ 8 }
    ensures others { (other : View) → AreApart other view → IsView 2 other seat.old.me.0 → IsView 2 other seat.new.me.0 }
{
    view.release(rt, ring, seat);
}
