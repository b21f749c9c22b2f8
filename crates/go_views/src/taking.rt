// A view is taken: each shard is pinned, the ring is copied, and the pins are settled at the archived front.
ghost use Rattle.std.specs.Prelude.{◌≡◌, ◌^◌, ◌<◌, ◌≤◌, length, IfOk, MatchResult};
ghost use Rattle.go_word.specs.declared.word.TheConstants.{ID_LIMIT};
ghost use Rattle.go_rule.specs.Steps.{IsAt};
ghost use Rattle.go_rule.specs.Views.{frame_of};
ghost use Rattle.go_views.specs.Gathering.{HasGathered, IsStopped};
ghost use Rattle.go_views.specs.PlaceTurns.{HasNames};
ghost use Rattle.go_views.specs.Taking.{Takes};

use crate::copying::copy_up_to;
use crate::counts::Counts;
use crate::later::later_words;
use crate::live_view::LiveView;
use crate::pinning::pin_each;
use crate::releasing::unpin_each;
use crate::settling::settle_each;
use go_api::Stop;
use go_disk::Disk;
use go_piece::Piece;
use go_rule::{Ring, Seat};
use go_shard::ByVertex;
use std::alloc::Global;
use std::sync::Wait;

// What a view has beside its pins.
struct Gathered {
    front: u64,
    archived: u64,
    counts: Counts,
    later: ByVertex,
}

/// Takes a view of the log, by way of a buffer of as many words as the ring has slots. It waits until the log has come to the floor; the
/// view is of no less than the seat had seen.
///
/// Each shard is pinned at its cut before the ring is copied, so that no compaction goes past the archived front of the copy until the pins
/// stand there. Where it is stopped, it leaves no pin.
pub fn take_view<D: Disk, R: Wait>(
    rt: &R,
    alloc: Global,
    ring: &Ring<Piece<D>>,
    seat: &mut Seat<Piece<D>>,
    buf: &mut [u64],
    floor: u64,
) -> Result<LiveView, Stop>
    requires at { IsAt ring.now.table.shared.table_id seat.old.table_id seat.old.me.0 }
    requires room { length buf.old ≡ ring.now.slots }
    requires shards { (1 ≤ ring.now.shards) × (ring.now.shards < 2 ^ 32) }
    requires ids { seat.old.me.0.about.vertices ≤ ID_LIMIT }
    ensures stays { (seat.new.table_id ≡ seat.old.table_id) × (seat.new.id ≡ seat.old.id) }
    ensures hand { seat.new.me.1 ≡ seat.old.me.1 }
    ensures long { length buf.new ≡ length buf.old }
    ensures sees { IfOk result (λ _. length seat.new.me.0.told.seen ≡ seat.new.me.0.core.seen) }
    ensures takes { Takes (frame_of ring.now.table.shared.key) ring.now.table.shared.table_id.slots ring.now.shards floor seat.old.me result seat.new.me }
{
    let Ok(names) = pin_each(rt, alloc, ring, seat) else {
        return Err(Stop::Memory);
    };
    match gather(rt, alloc, ring, seat, buf, floor, &names) {
        Ok(gathered) => {
            let Gathered {
                front,
                archived,
                counts,
                later,
            } = gathered;
            Ok(LiveView {
                front,
                archived,
                counts,
                later,
                names,
            })
        }
        Err(why) => {
            unpin_each(rt, ring, seat, &names);
            Err(why)
        }
    }
}

// Gathers what a view has beside its pins, which have these names: it copies the ring, settles the pins, and reads the counts and the words.
fn gather<D: Disk, R: Wait>(
    rt: &R,
    alloc: Global,
    ring: &Ring<Piece<D>>,
    seat: &mut Seat<Piece<D>>,
    buf: &mut [u64],
    floor: u64,
    names: &[u64],
) -> Result<Gathered, Stop>
    requires at { IsAt ring.now.table.shared.table_id seat.old.table_id seat.old.me.0 }
    requires room { length buf.old ≡ ring.now.slots }
    requires shards { (length names.now ≡ ring.now.shards) × (1 ≤ ring.now.shards) × (ring.now.shards < 2 ^ 32) }
    requires ids { seat.old.me.0.about.vertices ≤ ID_LIMIT }
    requires named { HasNames names.now seat.old.me.0 }
    ensures stays { (seat.new.table_id ≡ seat.old.table_id) × (seat.new.id ≡ seat.old.id) }
    ensures hand { seat.new.me.1 ≡ seat.old.me.1 }
    ensures long { length buf.new ≡ length buf.old }
    ensures gathers { MatchResult result
        (λ gathered. HasGathered (frame_of ring.now.table.shared.key) floor (record {
          front = gathered.front;
          archived = gathered.archived;
          counts = gathered.counts;
          later = gathered.later;
          names = names.now;
        }) seat.old.me.0 seat.new.me.0)
        (λ why. IsStopped (frame_of ring.now.table.shared.key) ring.now.table.shared.table_id.slots names.now why seat.old.me seat.new.me) }
{
    let copied = match copy_up_to(rt, ring, seat, buf, floor) {
        Ok(copied) => copied,
        Err(why) => return Err(why),
    };
    let Ok(counts) = settle_each(rt, alloc, ring, seat, names, copied.archived) else {
        return Err(Stop::Memory);
    };
    let Ok(later) = later_words(alloc, buf, copied.archived, copied.end, counts.vertices()) else {
        return Err(Stop::Memory);
    };
    Ok(Gathered {
        front: copied.end,
        archived: copied.archived,
        counts,
        later,
    })
}
