// A shard of the vertices.
ghost use Rattle.std.specs.Prelude.{◌≡◌, ℕ, ◌+◌, ◌-◌, ◌/◌, ◌<◌, ◌≤◌, ◌^◌, [], ◌++◌, List, length, replicate, take, slice_index, All, IfOk, OnOk, OnErr, true};
ghost use Rattle.go_word.specs.declared.edge.TheConstants.{VERTEX_LIMIT};
ghost use Rattle.go_word.specs.declared.edge.Edge.{Edge as Entry};
ghost use Rattle.go_word.specs.Log.{IsWithin, raw, entries_from};
ghost use Rattle.go_word.specs.Neighbours.{neighbours};
ghost use Rattle.go_shard.specs.Lane.{empty_lane};
ghost use Rattle.go_shard.specs.ShardState.{IsOf, Keeps, is_own, lane_of, told, counts_of, IsAtRest};
ghost use Rattle.go_shard.specs.Stands.{Stands, GoesOn, HasGrown, HasForgotten};

use crate::batch::take_batch;
use crate::compacting::compact_listed;
use crate::counting::{add_counts, add_known};
use crate::fronts::{FrontRange, forget_below};
use crate::listing::forget_bare;
use crate::slot::Slot;
use crate::striping::Striping;
use go_word::{Edge, Pin, VERTEX_LIMIT};
use std::alloc::{AllocError, Global};
use std::marker::Model;

/// The entries of the vertices `index`, `index + shards`, `index + 2 * shards` and so on, up to a front.
#[derive(Drop)]
pub struct Shard {
    // fixed
    index: u32,
    shards: u32,
    vertices: u32,
    // grown by appends, shortened by compactions
    pub(crate) front: u64,
    pub(crate) cut: u64,
    pub(crate) earlier: Vec<FrontRange>,
    pub(crate) since: u64,
    slots: Vec<Slot>,
    // the places of vertices that have words
    listed: Vec<u32>,
    // what holds compactions back
    pub(crate) pins: Vec<Pin>,
}

impl Model for Shard {
    ghost use Rattle.go_shard.specs.ShardState.{ShardState, IsSound};
    ghost use Rattle.go_shard.specs.Listing.{AreListed};

    ghost Value = { ShardState };

    ghost view = { λ shard. record {
      index = shard.index;
      shards = shard.shards;
      vertices = shard.vertices;
      front = shard.front;
      cut = shard.cut;
      fronts = record { earlier = shard.earlier.items; since = shard.since };
      pins = shard.pins.items;
      lanes = shard.slots.items;
    } };

    ghost invariant = { λ shard. IsSound (record {
      index = shard.index;
      shards = shard.shards;
      vertices = shard.vertices;
      front = shard.front;
      cut = shard.cut;
      fronts = record { earlier = shard.earlier.items; since = shard.since };
      pins = shard.pins.items;
      lanes = shard.slots.items;
    }) × AreListed shard.listed.items shard.slots.items };
}

impl Shard {
    /// The shard `index` of `shards` over so many vertices, before any entry.
    pub fn new(alloc: Global, index: u32, shards: u32, vertices: u32) -> Result<Shard, AllocError>
        requires index { index < shards }
        requires some { 1 ≤ vertices }
        requires few { vertices ≤ VERTEX_LIMIT }
        ensures stands { IfOk result (λ shard. Stands shard []) }
        ensures index { IfOk result (λ shard. shard.index ≡ index) }
        ensures shards { IfOk result (λ shard. shard.shards ≡ shards) }
        ensures vertices { IfOk result (λ shard. shard.vertices ≡ vertices) }
        ensures pins { IfOk result (λ shard. shard.pins ≡ []) }
    {
        Ok(Shard {
            index,
            shards,
            vertices,
            front: 0,
            cut: 0,
            earlier: Vec::new(alloc),
            since: 0,
            slots: empty_slots(alloc, (vertices / shards) as usize + 1)?,
            listed: Vec::new(alloc),
            pins: Vec::new(alloc),
        })
    }

    /// The length of the log that the shard knows.
    pub fn front(&self) -> u64
        ensures { result ≡ self.now.front }
    {
        self.front
    }

    /// The front up to which the shard was compacted.
    pub fn cut(&self) -> u64
        ensures { result ≡ self.now.cut }
    {
        self.cut
    }

    /// Takes the shard's entries of the log between its front and a later one, which is kept from then on.
    ///
    /// Without entries nothing is asked for, and all fronts between the two are kept.
    pub fn append(&mut self, batch: &[Edge], front: u64) -> Result<(), AllocError>
        requires later { self.old.front < front }
        requires small { front < 2 ^ 32 }
        requires short { length batch.now ≤ front - self.old.front }
        requires ids { All (IsWithin self.old.vertices) batch.now }
        requires own { All (λ e. is_own self.old e ≡ true) batch.now }
        ensures stands { (log more : List Entry) → Stands self.old log → GoesOn self.old more batch.now front →
            OnOk result (Stands self.new (log ++ more)) }
        ensures grown { OnOk result (HasGrown front batch.now self.old self.new) }
        ensures err { OnErr result (self.new ≡ self.old) }
    {
        if batch.is_empty() {
            self.front = front;
            return Ok(());
        }
        let alloc = *self.slots.allocator();
        self.earlier.reserve(1)?;
        let shards = Striping::new(self.shards);
        take_batch(
            alloc,
            shards,
            &mut self.slots,
            &mut self.listed,
            batch,
            front,
        )?;
        self.earlier.push_reserved(FrontRange {
            first: self.since as u32,
            last: self.front as u32,
        });
        self.since = front;
        self.front = front;
        Ok(())
    }

    /// How many entries had left the vertex `v` at a front that is kept, additions and deletions alike.
    pub fn degree_at(&self, v: u32, front: u64) -> u32
        requires own { IsOf self.now v }
        requires kept { Keeps self.now front }
        requires uncut { self.now.cut ≤ front }
        ensures count { result ≡ told self.now v front }
        ensures from { told self.now v self.now.cut ≤ result }
        ensures there { result ≤ told self.now v self.now.front }
        ensures raw { (log : List Entry) → Stands self.now log → result ≡ raw (take front log) v }
    {
        let slot = self.slot_of(v);
        if front == self.front {
            slot.known()
        } else {
            slot.count_at(front)
        }
    }

    /// Adds to `out` how many entries had left each vertex at a front that is kept, in the order of the vertices.
    ///
    /// After want of memory nothing is claimed of `out`.
    pub fn counts_at(&self, front: u64, out: &mut Vec<u32>) -> Result<(), AllocError>
        requires kept { Keeps self.now front }
        requires uncut { self.now.cut ≤ front }
        ensures counts { OnOk result (out.new.items ≡ out.old.items ++ counts_of self.now front) }
        ensures places { length (counts_of self.now front) ≡ self.now.vertices / self.now.shards + 1 }
        ensures each { (v : ℕ) → IsOf self.now v → slice_index (counts_of self.now front) (v / self.now.shards) ≡ told self.now v front }
        ensures few { self.now.vertices ≤ VERTEX_LIMIT }
        ensures small { self.now.front < 2 ^ 32 }
    {
        if front == self.front {
            add_known(&self.slots, out)
        } else {
            add_counts(&self.slots, front, out)
        }
    }

    /// Gives the neighbours of `v` after the first `raw` of its entries into `out`, which is cleared first.
    ///
    /// After want of memory nothing is claimed of `out`.
    pub fn neighbours(&self, v: u32, raw: u32, out: &mut Vec<u32>) -> Result<(), AllocError>
        requires own { IsOf self.now v }
        requires from { told self.now v self.now.cut ≤ raw }
        requires there { raw ≤ told self.now v self.now.front }
        ensures { (log : List Entry) → Stands self.now log →
            OnOk result (out.new.items ≡ neighbours (take raw (entries_from v log)) v) }
    {
        let alloc = *self.slots.allocator();
        self.slot_of(v).list_at(alloc, raw, out)
    }

    /// Forgets how the log's entries up to a front came, and keeps the neighbours that they made.
    pub fn compact(&mut self, front: u64) -> Result<(), AllocError>
        requires kept { Keeps self.old front }
        requires uncut { self.old.cut ≤ front }
        requires pinned { All (λ pin. front ≤ pin.front) self.old.pins }
        ensures stands { (log : List Entry) → Stands self.old log → OnOk result (Stands self.new log) }
        ensures forgotten { OnOk result (HasForgotten front self.old self.new) }
        ensures err { OnErr result (self.new ≡ self.old) }
    {
        if front == self.cut {
            return Ok(());
        }
        let alloc = *self.slots.allocator();
        compact_listed(alloc, &mut self.slots, &self.listed, front)?;
        forget_bare(&self.slots, &mut self.listed);
        forget_below(&mut self.earlier, front);
        self.cut = front;
        Ok(())
    }

    // The place of a vertex of this shard.
    fn slot_of(&self, v: u32) -> &Slot
        requires { IsOf self.now v }
        ensures lane { result.now ≡ lane_of self.now v }
        ensures rest { IsAtRest self.now.cut self.now.front (lane_of self.now v) }
        ensures bounds { (f : ℕ) → Keeps self.now f → f ≤ self.now.front }
        ensures small { self.now.front < 2 ^ 32 }
    {
        &self.slots[Striping::new(self.shards).place_of(v)]
    }
}

// So many places without entries.
fn empty_slots(alloc: Global, count: usize) -> Result<Vec<Slot>, AllocError>
    ensures { IfOk result (λ slots. slots.items ≡ replicate count empty_lane) }
{
    let mut slots = Vec::with_capacity(alloc, count)?;
    for _ in 0..count {
        slots.push(Slot::new())?;
    }
    Ok(slots)
}
