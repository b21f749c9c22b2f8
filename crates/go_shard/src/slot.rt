// The place of a vertex in its shard.
ghost use Rattle.std.specs.Prelude.{◌≡◌, ◌+◌, ◌<◌, ◌≤◌, ◌^◌, length, fold, nat_lt, IfOk, OnOk, OnErr};
ghost use Rattle.go_versions.specs.History.{count_at};
ghost use Rattle.go_shard.specs.Compacting.{CanCompact, HasRoomFor, Becomes, renewed};
ghost use Rattle.go_shard.specs.Lane.{empty_lane, promising, accepting, without_last, known, list_at, IsAhead};
ghost use Rattle.go_shard.specs.Listing.{is_bare};

use crate::held::Held;
use crate::renewal::Renewal;
use std::alloc::{AllocError, Global};
use std::marker::Model;

/// What is held of a vertex, on the heap once it has entries.
#[derive(Drop)]
pub(crate) struct Slot {
    held: Option<Box<Held>>,
}

impl Model for Slot {
    ghost use Rattle.std.specs.Option.{option_map_or};
    ghost use Rattle.go_shard.specs.Lane.{Lane, empty_lane};

    ghost Value = { Lane };

    ghost view = { λ slot. option_map_or (λ held. held.value) slot.held empty_lane };
}

impl Slot {
    /// The place of a vertex without entries.
    pub(crate) fn new() -> Slot
        ensures { result ≡ empty_lane }
    {
        Slot { held: None }
    }

    /// Whether there are no words, and none are promised.
    pub(crate) fn is_bare(&self) -> bool
        ensures { result ≡ is_bare self.now }
    {
        match &self.held {
            Some(held) => held.is_bare(),
            None => true,
        }
    }

    /// Whether there are words.
    pub(crate) fn has_words(&self) -> bool
        ensures { result ≡ nat_lt 0 (length self.now.words) }
    {
        match &self.held {
            Some(held) => held.has_words(),
            None => false,
        }
    }

    /// Promises a place to so many more words.
    pub(crate) fn promise(&mut self, alloc: Global, more: usize) -> Result<(), AllocError>
        ensures ok { OnOk result (self.new ≡ promising self.old (self.old.promised + more)) }
        ensures err { OnErr result (self.new ≡ self.old) }
    {
        if more == 0 {
            return Ok(());
        }
        self.promise_some(alloc, more)
    }

    // The same for some words, apart from the test above, which is made for each vertex.
    fn promise_some(&mut self, alloc: Global, more: usize) -> Result<(), AllocError>
        ensures ok { OnOk result (self.new ≡ promising self.old (self.old.promised + more)) }
        ensures err { OnErr result (self.new ≡ self.old) }
    {
        match &mut self.held {
            Some(held) => held.promise(more),
            None => {
                let mut held = Held::new(alloc);
                held.promise(more)?;
                self.held = Some(Box::new(alloc, held)?);
                Ok(())
            }
        }
    }

    /// Takes back all promises.
    pub(crate) fn withdraw(&mut self)
        ensures { self.new ≡ promising self.old 0 }
    {
        if let Some(held) = &mut self.held {
            held.withdraw();
        }
    }

    /// Takes words that were promised a place; the last one promised notes the count from the front on.
    pub(crate) fn accept(&mut self, words: &[u64], front: u64)
        requires promised { length words.now ≤ self.old.promised }
        requires ahead { IsAhead front self.old }
        requires small { known self.old + length words.now < 2 ^ 32 }
        ensures { self.new ≡ fold (accepting front) self.old words.now }
    {
        if !words.is_empty() {
            self.accept_some(words, front);
        }
    }

    // The same for some words.
    fn accept_some(&mut self, words: &[u64], front: u64)
        requires some { 0 < length words.now }
        requires promised { length words.now ≤ self.old.promised }
        requires ahead { IsAhead front self.old }
        requires small { known self.old + length words.now < 2 ^ 32 }
        ensures { self.new ≡ fold (accepting front) self.old words.now }
    {
        if let Some(held) = &mut self.held {
            held.accept(words, front);
        }
    }

    /// Gives up the last words, so many of them, and the count that was noted last.
    pub(crate) fn give_back(&mut self, count: usize)
        ensures { self.new ≡ without_last count self.old }
    {
        if let Some(held) = &mut self.held
            && 0 < count
        {
            held.give_back(count);
        }
    }

    /// How many entries there were at a front.
    pub(crate) fn count_at(&self, front: u64) -> u32
        requires { self.now.retired ≤ front }
        ensures { result ≡ count_at self.now.versions front }
    {
        match &self.held {
            Some(held) => held.count_at(front),
            None => 0,
        }
    }

    /// How many entries there are.
    pub(crate) fn known(&self) -> u32
        requires { known self.now < 2 ^ 32 }
        ensures { result ≡ known self.now }
    {
        match &self.held {
            Some(held) => held.known(),
            None => 0,
        }
    }

    /// Gives the neighbours after the first `raw` entries into `out`, which is cleared first.
    ///
    /// After want of memory nothing is claimed of `out`.
    pub(crate) fn list_at(
        &self,
        alloc: Global,
        raw: u32,
        out: &mut Vec<u32>,
    ) -> Result<(), AllocError>
        requires from { self.now.floor ≤ raw }
        requires there { raw ≤ known self.now }
        ensures { OnOk result (out.new.items ≡ list_at self.now raw) }
    {
        match &self.held {
            Some(held) => held.list_at(alloc, raw, out),
            None => {
                out.clear();
                Ok(())
            }
        }
    }

    /// What the vertex becomes when it is compacted at a front, in memory of its own; none where it stays what it is.
    pub(crate) fn compacted(&self, alloc: Global, front: u64) -> Result<Option<Renewal>, AllocError>
        requires can { CanCompact front self.now }
        ensures { IfOk result (λ renewal. Becomes front self.now renewal) }
    {
        match &self.held {
            Some(held) => held.compacted(alloc, front),
            None => Ok(None),
        }
    }

    /// Takes the place that the vertex has after a compaction, unless it has it already; takes no memory.
    pub(crate) fn renew(&mut self, renewal: Renewal)
        requires there { renewal.base.value.floor ≤ known self.old }
        requires room { self.old.floor < renewal.base.value.floor → HasRoomFor renewal self.old }
        ensures already { renewal.base.value.floor ≤ self.old.floor → self.new ≡ self.old }
        ensures renewed { self.old.floor < renewal.base.value.floor → self.new ≡ record (renewed renewal self.old) { spare = self.new.spare } }
    {
        if let Some(held) = &mut self.held
            && held.floor() < renewal.base.floor
        {
            held.renew(renewal);
        }
    }
}
