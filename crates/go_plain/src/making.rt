// Making a store over a log that was opened.
ghost use Rattle.std.specs.Prelude.{◌≡◌, ◌+◌, ◌<◌, ◌≤◌, ◌^◌, [], List, All, length, map, replicate, IfOk, MatchResult};
ghost use Rattle.go_word.specs.declared.edge.Edge.{Edge as Entry};
ghost use Rattle.go_word.specs.Log.{IsWithin};
ghost use Rattle.go_plain.specs.Plain.{AreQuotas, IsPlainSetup, made_of};
ghost use Rattle.go_shard.specs.Parts.{HaveParts};

use crate::body::Body;
use crate::front_rows::FrontRows;
use crate::ring::Ring;
use crate::scratch::Scratch;
use crate::seat::new_seats;
use crate::store::PlainStore;
use go_api::Setup;
use go_disk::Disk;
use go_durable::{Journal, Opened};
use go_shard::{Shard, catch_up, empty_shards};
use go_word::Edge;
use std::alloc::{AllocError, Global};
use std::snapshot::Snapshot;

/// The disk of a store that wasn't made for want of memory.
#[derive(Drop)]
pub struct Unmade<D> {
    pub disk: D,
}

impl<D: Disk> PlainStore<D> {
    /// A store over a log that was opened, for as many sessions as there are quotas: each may put so many entries.
    ///
    /// The refusal is want of memory, and hands the disk back.
    pub fn new(
        alloc: Global,
        opened: Opened<D>,
        setup: Setup,
        quotas: &[u64],
    ) -> Result<PlainStore<D>, Unmade<D>>
        requires setup { IsPlainSetup setup }
        requires vertices { opened.log.vertices ≡ setup.vertices }
        requires quotas { AreQuotas (length opened.edges) quotas.now }
        ensures { MatchResult result (λ store. store ≡ made_of opened setup quotas.now) (λ unmade. unmade.disk ≡ opened.log.disk) }
    {
        let Opened { log, edges } = opened;
        let Ok(shards) = make_shards(alloc, setup, &edges) else {
            return Err(Unmade {
                disk: log.into_disk(),
            });
        };
        let Ok(ring) = Ring::new(alloc, setup.ring as u32, setup.vertices) else {
            return Err(Unmade {
                disk: log.into_disk(),
            });
        };
        let Ok(seats) = new_seats(alloc, edges.len() as u64, quotas) else {
            return Err(Unmade {
                disk: log.into_disk(),
            });
        };
        let body = Body {
            alloc,
            vertices: setup.vertices,
            first: edges.len() as u64,
            opened: Snapshot::of(&log),
            found: Snapshot::of(&edges),
            past: Vec::new(alloc),
            moved: edges.len() as u64,
            shards,
            ring,
            journal: Some(Journal::Sound { log }),
            seats,
            rows: FrontRows::new(alloc),
            scratch: Scratch::new(alloc),
        };
        match Box::new(alloc, body) {
            Ok(body) => Ok(PlainStore { body }),
            Err(refused) => Err(Unmade {
                disk: refused.value.into_disk(),
            }),
        }
    }
}

// The shards of a store, with all entries of a log.
fn make_shards(alloc: Global, setup: Setup, edges: &[Edge]) -> Result<Vec<Shard>, AllocError>
    requires setup { IsPlainSetup setup }
    requires ids { All (IsWithin setup.vertices) edges.now }
    requires small { length edges.now < 2 ^ 32 }
    ensures parts { IfOk result (λ shards. HaveParts setup.vertices (length shards.items) (length edges.now) [] edges.now shards.items) }
    ensures cuts { IfOk result (λ shards. map (λ shard. shard.cut) shards.items ≡ replicate setup.shards 0) }
{
    let mut shards = empty_shards(alloc, setup.shards, setup.vertices)?;
    catch_up(alloc, &mut shards, edges, 0, &[])?;
    Ok(shards)
}
