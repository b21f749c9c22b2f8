// Entries that left the ring are read from the log's file, whose turn is taken for it.
ghost use Rattle.std.specs.Prelude.{◌≡◌, ◌<◌, ◌≤◌, ◌^◌, max, [], length};
ghost use Rattle.go_rule.specs.Steps.{IsAt};
ghost use Rattle.go_rule.specs.Views.{frame_of};
ghost use Rattle.go_stream.specs.Updates.{ReadsFile};

use crate::flagged::wait_for_flag;
use go_api::Stop;
use go_disk::Disk;
use go_durable::{Journal, Ranged};
use go_piece::Piece;
use go_ring::RingCalls;
use go_rule::{Ring, Seat};
use go_turns::{Hold, Lifted, give, take};
use go_word::Edge;
use std::sync::Wait;

// Reads the entries from one place in the log up to another from the file, all of them durable. Where its disk fails, the flag is raised
// before the file is given back; a file that had failed before can't be read, and the flag tells why.
pub(crate) fn read_file<D: Disk, R: Wait>(
    rt: &R,
    ring: &Ring<Piece<D>>,
    seat: &mut Seat<Piece<D>>,
    from: u64,
    to: u64,
    out: &mut Vec<Edge>,
) -> Result<(), Stop>
    requires at { IsAt ring.now.table.shared.table_id seat.old.table_id seat.old.me.0 }
    requires order { from ≤ to }
    requires shards { ring.now.shards < 2 ^ 32 }
    requires durable { to ≤ max from seat.old.me.0.core.durable }
    requires seen { to ≤ length seat.old.me.0.told.seen }
    requires empty { out.old.items ≡ [] }
    ensures stays { (seat.new.table_id ≡ seat.old.table_id) × (seat.new.id ≡ seat.old.id) }
    ensures hand { seat.new.me.1 ≡ seat.old.me.1 }
    ensures reads { ReadsFile D.device (frame_of ring.now.table.shared.key) ring.now.table.shared.table_id.slots from to result seat.old.me
        seat.new.me out.new.items }
{
    if from == to {
        return Ok(());
    }
    let Lifted { key, part } = take(rt, ring, seat, ring.shards as u32).lift();
    match part {
        Piece::Log { log } => {
            let Ranged { journal, stop } = Journal::Sound { log }.read_range(from, to, out);
            let read = Hold::back(key, Piece::file(journal));
            match stop {
                None => {
                    give(ring, seat, read);
                    Ok(())
                }
                Some(why) => match why {
                    Stop::Memory => {
                        give(ring, seat, read);
                        Err(Stop::Memory)
                    }
                    Stop::Disk => {
                        ring.raise(seat, Stop::Disk);
                        give(ring, seat, read);
                        Err(Stop::Disk)
                    }
                },
            }
        }
        Piece::Spent { disk, front } => {
            let why = wait_for_flag(rt, ring, seat);
            give(ring, seat, Hold::back(key, Piece::Spent { disk, front }));
            Err(why)
        }
        Piece::Shard { shard: _ } => unreachable!(),
    }
}
