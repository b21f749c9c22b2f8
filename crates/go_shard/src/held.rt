// What is held of a vertex that has entries.
ghost use Rattle.std.specs.Prelude.{◌≡◌, ◌↔◌, ◌+◌, ◌-◌, ◌*◌, ◌<◌, ◌≤◌, ◌^◌, [], ◌++◌, length, fold, nat_lt};
ghost use Rattle.std.specs.Prelude.{All, IfOk, OnOk, OnErr, IsTrue, true, if◌then◌else◌, vec_capacity};
ghost use Rattle.go_net.specs.Net.{net_of};
ghost use Rattle.go_versions.specs.History.{count_at};
ghost use Rattle.go_shard.specs.Compacting.{AddsOne, CanCompact, HasRoomFor, Becomes, renewed};
ghost use Rattle.go_shard.specs.Lane.{empty_lane, promising, accepting, without_last, known, list_at, IsAhead};
ghost use Rattle.go_shard.specs.Listing.{is_bare};

use crate::renewal::{Base, Renewal};
use crate::words::{tail_behind, take_first};
use go_chunk::Chain;
use go_net::net;
use go_versions::Versions;
use go_word::decode;
use std::alloc::{AllocError, Global};
use std::marker::Model;

// For so many neighbours at most room is made before the words are read: a list may be much shorter than the words that it comes of.
const FEW: usize = 64;

/// The neighbours of a vertex at the cut, after how many entries, and the words of its later ones; how many entries there
/// were in all at each front that brought some, and how many more words are promised a place.
#[derive(Drop)]
pub(crate) struct Held {
    tail: Chain,
    // between the two, so that what a batch looks at lies close together
    promised: usize,
    base: Option<Box<Base>>,
    versions: Versions,
}

impl Model for Held {
    ghost use Rattle.std.specs.Prelude.{[], ◌-◌, vec_len, vec_capacity};
    ghost use Rattle.std.specs.Option.{option_map_or};
    ghost use Rattle.go_shard.specs.Lane.{Lane, IsReady};

    ghost Value = { Lane };

    ghost view = { λ held. record {
      base = option_map_or (λ base. base.value.list.items) held.base [];
      floor = option_map_or (λ base. base.value.floor) held.base 0;
      spare = option_map_or (λ base. vec_capacity base.value.list - vec_len base.value.list) held.base 0;
      words = held.tail.words;
      versions = held.versions.versions;
      retired = held.versions.retired;
      promised = held.promised;
    } };

    ghost invariant = { λ held. IsReady held.tail.spare held.versions.spare held.promised };
}

impl Held {
    /// A vertex without entries; it asks for no memory.
    pub(crate) fn new(alloc: Global) -> Held
        ensures { result ≡ empty_lane }
    {
        Held {
            tail: Chain::new(alloc),
            promised: 0,
            base: None,
            versions: Versions::new(alloc),
        }
    }

    /// Whether there are no words, and none are promised.
    pub(crate) fn is_bare(&self) -> bool
        ensures { result ≡ is_bare self.now }
    {
        self.tail.len() == 0 && self.promised == 0
    }

    /// Whether there are words.
    pub(crate) fn has_words(&self) -> bool
        ensures { result ≡ nat_lt 0 (length self.now.words) }
    {
        0 < self.tail.len()
    }

    /// Promises a place to so many more words, and to the version that they will bring.
    pub(crate) fn promise(&mut self, more: usize) -> Result<(), AllocError>
        ensures ok { OnOk result (self.new ≡ promising self.old (self.old.promised + more)) }
        ensures err { OnErr result (self.new ≡ self.old) }
    {
        let promised = self.promised.checked_add(more).ok_or(AllocError)?;
        self.tail.reserve(promised)?;
        self.versions.reserve()?;
        self.promised = promised;
        Ok(())
    }

    /// Takes back all promises.
    pub(crate) fn withdraw(&mut self)
        ensures { self.new ≡ promising self.old 0 }
    {
        self.promised = 0;
    }

    /// Takes words that were promised a place; the last one promised notes the count from the front on.
    pub(crate) fn accept(&mut self, words: &[u64], front: u64)
        requires some { 0 < length words.now }
        requires promised { length words.now ≤ self.old.promised }
        requires ahead { IsAhead front self.old }
        requires small { known self.old + length words.now < 2 ^ 32 }
        ensures { self.new ≡ fold (accepting front) self.old words.now }
    {
        self.tail.extend_from_slice(words);
        self.promised -= words.len();
        if self.promised == 0 {
            let count = self.floor() + self.tail.len() as u32;
            self.versions.note(front, count);
        }
    }

    /// Gives up the last words, so many of them, and the count that was noted last.
    pub(crate) fn give_back(&mut self, count: usize)
        requires { 0 < count }
        ensures { self.new ≡ without_last count self.old }
    {
        let left = self.tail.len().saturating_sub(count);
        self.tail.truncate(left);
        self.versions.forget_last();
    }

    /// How many entries there were at a front.
    pub(crate) fn count_at(&self, front: u64) -> u32
        requires { self.now.retired ≤ front }
        ensures { result ≡ count_at self.now.versions front }
    {
        self.versions.at(front)
    }

    /// How many entries there are.
    pub(crate) fn known(&self) -> u32
        requires { known self.now < 2 ^ 32 }
        ensures { result ≡ known self.now }
    {
        self.floor() + self.tail.len() as u32
    }

    /// Gives the neighbours after the first `raw` entries into `out`, which is cleared first.
    ///
    /// After want of memory nothing is claimed of `out`.
    pub(crate) fn list_at(
        &self,
        alloc: Global,
        raw: u32,
        out: &mut Vec<u32>,
    ) -> Result<(), AllocError>
        requires from { self.now.floor ≤ raw }
        requires there { raw ≤ known self.now }
        ensures { OnOk result (out.new.items ≡ list_at self.now raw) }
    {
        out.clear();
        let base = self.base();
        let later = (raw - self.floor()) as usize;
        out.reserve(base.len().saturating_add(later.min(FEW)))?;
        out.extend_from_slice(base)?;
        take_first(alloc, &self.tail, later, out)
    }

    /// What the vertex becomes when it is compacted at a front, in memory of its own; none where it stays what it is.
    pub(crate) fn compacted(&self, alloc: Global, front: u64) -> Result<Option<Renewal>, AllocError>
        requires can { CanCompact front self.now }
        ensures { IfOk result (λ renewal. Becomes front self.now renewal) }
    {
        let floor = self.count_at(front);
        let count = (floor - self.floor()) as usize;
        if count == 0 {
            return Ok(None);
        }
        let mut words = Vec::with_capacity(alloc, count)?;
        self.tail.copy_front(count, &mut words)?;
        let (list, grows) = self.list_after(alloc, &words)?;
        Ok(Some(Renewal {
            base: Box::new(alloc, Base { list, floor })?,
            grows,
            tail: tail_behind(alloc, &self.tail, count)?,
            versions: self.versions.retired(front)?,
        }))
    }

    // What some words more bring to the neighbours, where there is room for it and none is deleted, and true; or else the
    // neighbours after them, and false.
    fn list_after(&self, alloc: Global, words: &[u64]) -> Result<(Vec<u32>, bool), AllocError>
        ensures list { IfOk result (λ new. (if new.1 then self.now.base ++ new.0.items else new.0.items) ≡ net_of self.now.base words.now) }
        ensures room { IfOk result (λ new. new.1 ≡ true → length new.0.items ≤ self.now.spare) }
    {
        if words.len() <= self.spare() && add_only(words) {
            Ok((added(alloc, words)?, true))
        } else {
            Ok((self.rebuilt(alloc, words)?, false))
        }
    }

    // The neighbours after some words more, in a list of their own. Where there were some before and none were deleted,
    // it has room for as many again, so that a vertex that only grows is seldom copied.
    fn rebuilt(&self, alloc: Global, words: &[u64]) -> Result<Vec<u32>, AllocError>
        ensures list { IfOk result (λ list. list.items ≡ net_of self.now.base words.now) }
        ensures room { IfOk result (λ list. 0 < length self.now.base → All AddsOne words.now → 2 * length list.items ≤ vec_capacity list) }
    {
        let most = self.base().len().saturating_add(words.len());
        let mut list = Vec::with_capacity(alloc, most)?;
        net(alloc, self.base(), words, &mut list)?;
        if self.base().is_empty() || !add_only(words) {
            list.shrink_to_fit();
        } else {
            list.reserve(list.len())?;
        }
        Ok(list)
    }

    /// Takes the place that the vertex has after a compaction; takes no memory.
    pub(crate) fn renew(&mut self, renewal: Renewal)
        requires room { HasRoomFor renewal self.old }
        ensures { self.new ≡ record (renewed renewal self.old) { spare = self.new.spare } }
    {
        let Renewal {
            base,
            grows,
            tail,
            versions,
        } = renewal;
        match &mut self.base {
            Some(older) if grows => {
                older.list.extend_from_slice(&base.list).unwrap();
                older.floor = base.floor;
            }
            _ => self.base = Some(base),
        }
        self.tail = tail;
        self.versions = versions;
        self.promised = 0;
    }

    // The neighbours at the cut.
    fn base(&self) -> &[u32]
        ensures { result.now ≡ self.now.base }
    {
        match &self.base {
            Some(base) => &base.list,
            None => &[],
        }
    }

    // How many more neighbours there is room for.
    fn spare(&self) -> usize
        ensures { result ≡ self.now.spare }
    {
        match &self.base {
            Some(base) => base.list.capacity() - base.list.len(),
            None => 0,
        }
    }

    /// How many entries there were at the cut.
    pub(crate) fn floor(&self) -> u32
        ensures { result ≡ self.now.floor }
    {
        match &self.base {
            Some(base) => base.floor,
            None => 0,
        }
    }
}

// Whether all of these words are additions.
fn add_only(words: &[u64]) -> bool
    ensures { IsTrue result ↔ All AddsOne words.now }
{
    words.iter().all(|word| !decode(*word).del)
}

// The neighbours that some additions bring.
fn added(alloc: Global, words: &[u64]) -> Result<Vec<u32>, AllocError>
    ensures { IfOk result (λ list. list.items ≡ net_of [] words.now) }
{
    let mut list = Vec::with_capacity(alloc, words.len())?;
    net(alloc, &[], words, &mut list)?;
    Ok(list)
}
