// Appending a block to a log.
ghost use Rattle.std.specs.Prelude.{◌≡◌, ◌+◌, ◌<◌, ◌≤◌, ◌^◌, ◌++◌, [], ◌∷◌, All, List, ℕ, length, IfOk, OnOk, vec_len, vec_capacity};
ghost use Rattle.go_word.specs.declared.edge.Edge.{Edge};
ghost use Rattle.go_word.specs.Log.{IsWithin};
ghost use Rattle.go_word.specs.Word.{IsStorable};
ghost use Rattle.go_blocks.specs.File.{IsCount, body_of};
ghost use Rattle.go_blocks.specs.declared.layout.TheConstants.{CLOSED};
ghost use Rattle.go_durable.specs.Appending.{Appends, disk_after};
ghost use Rattle.go_durable.specs.Moments.{LeavesOnly};
ghost use Rattle.go_durable.specs.Recovery.{IsBeforeOrAfter};
ghost use Rattle.go_durable.specs.Standing.{IsLog};

use crate::durable_log::DurableLog;
use crate::fault::LogFault;
use crate::gate::open_behind;
use go_blocks::{BlockPlace, write_block};
use go_disk::Disk;
use go_word::Edge;
use std::alloc::AllocError;

impl<D: Disk> DurableLog<D> {
    /// Adds entries as one block, in four calls of the disk. At `Ok` they are stable: from then on each crash leaves a
    /// file that has them, and a crash inside the call leaves the log with all of them or with none.
    ///
    /// `Memory` comes before any call of the disk, with the log as it was. After `Disk` the log is spent.
    pub fn append(self, edges: &[Edge]) -> Result<DurableLog<D>, LogFault<D>>
        requires count { IsCount (length edges.now) }
        requires within { All (IsWithin self.vertices) edges.now }
        requires room { self.front + length edges.now < 2 ^ 32 }

        ensures answer { Appends D.device edges.now self result }

        // What a crash at each moment of the call may leave.
        ensures moments { (log : List Edge) → IsLog D.device self log →
            LeavesOnly D.device self.disk (disk_after result) (IsBeforeOrAfter self.vertices log edges.now) }

        ensures count { D.device.faults self.disk ≤ D.device.faults (disk_after result) }
    {
        let DurableLog {
            mut disk,
            vertices,
            front,
            gate,
            mut places,
        } = self;
        let Ok(body) = body_with_room(edges, &mut places) else {
            return Err(LogFault::Memory {
                log: DurableLog {
                    disk,
                    vertices,
                    front,
                    gate,
                    places,
                },
            });
        };
        let Ok(()) = open_behind(&mut disk, gate, &body) else {
            return Err(LogFault::Disk { disk });
        };
        add_place(&mut places, gate, edges.len() as u32);
        Ok(DurableLog {
            disk,
            vertices,
            front: front + edges.len() as u64,
            gate: gate + body.len() as u64,
            places,
        })
    }
}

// The bytes of a block behind its gate, and room for one place more.
fn body_with_room(edges: &[Edge], places: &mut Vec<BlockPlace>) -> Result<Vec<u8>, AllocError>
    requires count { IsCount (length edges.now) }
    requires storable { All IsStorable edges.now }
    ensures body { IfOk result (λ body. body.items ≡ body_of edges.now ++ CLOSED ∷ []) }
    ensures places { places.new.items ≡ places.old.items }
    ensures room { OnOk result (vec_len places.new < vec_capacity places.new) }
{
    let mut body = Vec::new(*places.allocator());
    write_block(edges, &mut body)?;
    places.reserve(1)?;
    Ok(body)
}

// One place more, for which there is room.
fn add_place(places: &mut Vec<BlockPlace>, gate: u64, count: u32)
    requires { vec_len places.old < vec_capacity places.old }
    ensures { places.new.items ≡ places.old.items ++ record { gate = gate; count = count } ∷ [] }
{
    places.push(BlockPlace { gate, count }).unwrap();
}
