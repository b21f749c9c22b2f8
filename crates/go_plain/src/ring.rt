// The newest entries of a log, chained by the vertex that they leave.
ghost use Rattle.std.specs.Prelude.{◌≡◌, ℕ, ◌+◌, ◌<◌, ◌≤◌, ◌==◌, ◌∷◌, ◌++◌, [], if◌then◌else◌, All, IfOk, OnOk, get_or, length, map, reverse, take};
ghost use Rattle.go_word.specs.Log.{IsWithin, entries_from, raw};
ghost use Rattle.go_word.specs.Word.{plain_word};
ghost use Rattle.go_api.specs.declared.limits.TheConstants.{SLOT_LIMIT};
ghost use Rattle.go_plain.specs.Ring.{IsRing, latest_of};

use crate::skip::Skip;
use go_word::{Edge, VERTEX_LIMIT, plain};
use std::alloc::{AllocError, Global};
use std::marker::Model;

/// The newest entries of a log, in the order of their arrival.
///
/// Those of one vertex are found without a look at the others.
#[derive(Drop)]
pub struct Ring {
    room: u32,
    entries: Vec<Edge>,
    // By entry the number of the session that put it.
    owners: Vec<u8>,
    // By vertex the number of its latest entry, counted from 1, and 0 where it has none.
    latest: Vec<u32>,
    // By entry the number of the one before it that leaves the same vertex.
    prior: Vec<u32>,
    // By entry the way past those behind the mark that was the last when it came.
    skips: Vec<Skip>,
    // How many entries there were when the last view was taken.
    mark: u32,
}

impl Model for Ring {
    ghost use Rattle.go_plain.specs.Ring.{RingState};
    ghost use Rattle.go_plain.specs.RingFields.{ring_of, IsKept};

    ghost Value = { RingState };

    ghost view = { ring_of };

    ghost invariant = { IsKept };
}

impl Ring {
    /// A ring without entries, with the memory for all that it has room for.
    pub fn new(alloc: Global, room: u32, vertices: u32) -> Result<Ring, AllocError>
        requires some { 1 ≤ room }
        requires small { room ≤ SLOT_LIMIT }
        requires few { vertices ≤ VERTEX_LIMIT }
        ensures { IfOk result (λ ring. ring ≡ record { entries = []; owners = []; room = room; vertices = vertices }) }
    {
        Ok(Ring {
            room,
            entries: Vec::with_capacity(alloc, room as usize)?,
            owners: Vec::with_capacity(alloc, room as usize)?,
            latest: vec![in alloc; 0u32; vertices as usize]?,
            prior: Vec::with_capacity(alloc, room as usize)?,
            skips: Vec::with_capacity(alloc, room as usize)?,
            mark: 0,
        })
    }

    /// The number of entries.
    pub fn len(&self) -> usize
        ensures exact { result ≡ length self.now.entries }
        ensures kept { IsRing self.now }
    {
        self.entries.len()
    }

    /// Whether there is no room for another entry.
    pub fn is_full(&self) -> bool
        ensures exact { result ≡ (length self.now.entries == self.now.room) }
        ensures kept { IsRing self.now }
    {
        self.entries.len() == self.room as usize
    }

    /// The entries in the order of their arrival.
    pub fn entries(&self) -> &[Edge]
        ensures exact { result.now ≡ self.now.entries }
        ensures kept { IsRing self.now }
    {
        &self.entries
    }

    /// Takes one more entry, of a session; takes no memory.
    pub fn push(&mut self, edge: Edge, owner: u8)
        requires room { length self.old.entries < self.old.room }
        requires ids { IsWithin self.old.vertices edge }
        ensures { self.new ≡ record self.old { entries = self.old.entries ++ edge ∷ []; owners = self.old.owners ++ owner ∷ [] } }
    {
        let place = edge.src as usize;
        let latest = self.latest[place];
        let skip = Skip::past(self.mark, latest, &self.skips);
        self.skips.push_reserved(skip);
        self.prior.push_reserved(latest);
        self.entries.push_reserved(edge);
        self.owners.push_reserved(owner);
        self.latest[place] = self.entries.len() as u32;
    }

    /// Sets a mark behind all entries: what is asked of these later is found without a look at newer ones.
    pub fn mark(&mut self)
        ensures { self.new ≡ self.old }
    {
        self.mark = self.entries.len() as u32;
    }

    /// Gives the words of those of the first `count` entries that leave `v` into `out`, which is cleared first.
    ///
    /// After want of memory nothing is claimed of `out`.
    pub fn words_from(&self, v: u32, count: usize, out: &mut Vec<u64>) -> Result<(), AllocError>
        requires there { v < self.now.vertices }
        requires count { count ≤ length self.now.entries }
        ensures { OnOk result (out.new.items ≡ map plain_word (entries_from v (take count self.now.entries))) }
    {
        out.clear();
        self.append_backwards(v, count, out)?;
        out.reverse();
        Ok(())
    }

    /// Gives up all entries; goes through them alone, and takes no memory.
    pub fn clear(&mut self)
        ensures { self.new ≡ record self.old { entries = []; owners = [] } }
    {
        forget(&self.entries, &mut self.latest);
        self.entries.clear();
        self.owners.clear();
        self.prior.clear();
        self.skips.clear();
        self.mark = 0;
    }

    // Appends the words of those of the first `count` entries that leave `v`, the latest one first.
    fn append_backwards(&self, v: u32, count: usize, out: &mut Vec<u64>) -> Result<(), AllocError>
        requires there { v < self.now.vertices }
        requires count { count ≤ length self.now.entries }
        requires empty { out.old.items ≡ [] }
        ensures { OnOk result
            (reverse out.new.items ≡ map plain_word (entries_from v (take count self.now.entries))) }
    {
        // The words of the entries from this slot on are in the list.
        let mut slot = count;
        let mut number = self.latest_among(v, count);
        while number > 0 {
            slot = number - 1;
            out.push(plain(self.entries[slot]))?;
            number = self.prior[slot] as usize;
        }
        Ok(())
    }

    // The number of the latest of the first `count` entries that leaves `v`.
    fn latest_among(&self, v: u32, count: usize) -> usize
        requires there { v < self.now.vertices }
        requires count { count ≤ length self.now.entries }
        ensures { result ≡ latest_of v (take count self.now.entries) }
    {
        let mut slot = self.entries.len();
        let mut number = self.latest[v as usize] as usize;
        while number > count {
            let skip = self.skips[number - 1];
            if count <= skip.mark as usize {
                slot = skip.mark as usize;
                number = skip.latest as usize;
            } else {
                slot = number - 1;
                number = self.prior[slot] as usize;
            }
        }
        number
    }
}

// Takes back the numbers of the latest entries of all vertices that the entries leave.
fn forget(entries: &[Edge], latest: &mut Vec<u32>)
    requires { All (λ e. e.src < length latest.old.items) entries.now }
    ensures all { length latest.new.items ≡ length latest.old.items }
    ensures gone { (s : ℕ) → get_or latest.new.items s 0
        ≡ (if raw entries.now s == 0 then get_or latest.old.items s 0 else 0) }
{
    for edge in entries {
        latest[edge.src as usize] = 0;
    }
}
