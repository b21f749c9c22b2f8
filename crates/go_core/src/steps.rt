// The acts, each by its row: over the words and the parties alone.
ghost use Rattle.std.specs.Prelude.{
  ◌≡◌,
  ℕ,
  ◌+◌,
  ◌^◌,
  ◌<◌,
  ◌≤◌,
  ◌%◌,
  List,
  length,
  slice_index_or,
  true,
  All,
  IfOk,
  OnErr,
  IsTrue,
  ◌↔◌,
};
ghost use Rattle.go_word.specs.Word.{IsStorable};
ghost use Rattle.go_core.specs.declared.act.Act.TheVariants.{
  Claim,
  LoadHead,
  StoreWord,
  LoadOrdered,
  Split,
  Join,
};
ghost use Rattle.go_core.specs.declared.home.Parts.{Parts};
ghost use Rattle.go_core.specs.Acts.{CanJoin, IsSession, HasNoTurn};
ghost use Rattle.go_core.specs.Machine.{Row, machine_of, absent, IsLiveAt};

use crate::act::Out;
use crate::edges::EdgeSeq;
use crate::opening::BASE;
use crate::party::Party;
use crate::words::HEAD;
use crate::{conditions, lists};
use go_word::{encode, matched};
use std::alloc::{AllocError, Global};
use std::mem;

// There are no more parties than this.
const PARTIES: usize = 0xFFFF_FFFF;

// A claim.
pub(crate) fn claim(
    alloc: Global,
    words: &mut Vec<u64>,
    parties: &mut Vec<Party>,
    i: usize,
    edges: &EdgeSeq,
) -> Result<Out, AllocError>
    requires words { 4 ≤ length words.old.items }
    requires live { IsLiveAt parties.old.items i }
    ensures row { IfOk result (λ out. (slots first : ℕ) (parts : Parts) →
        Row (machine_of slots first words.old.items parties.old.items parts) i (Claim edges.now) out
        (machine_of slots first words.new.items parties.new.items parts)) }
    ensures err_words { OnErr result (words.new.items ≡ words.old.items) }
    ensures err_parties { OnErr result (parties.new.items ≡ parties.old.items) }
{
    let edges = edges.as_slice();
    if !conditions::can_claim(words, edges) {
        return Ok(Out::Refused);
    }
    let head = words[HEAD];
    let party = &mut parties[i];
    party.view.claim(alloc, head, edges)?;
    words[HEAD] = head + edges.len() as u64;
    Ok(Out::Number { value: head })
}

// A load of the log's length.
pub(crate) fn load_head(words: &[u64], parties: &mut Vec<Party>, i: usize) -> Out
    requires words { 4 ≤ length words.now }
    requires live { IsLiveAt parties.old.items i }
    ensures { (slots first : ℕ) (parts : Parts) →
        Row (machine_of slots first words.now parties.old.items parts) i LoadHead result (machine_of slots first words.now parties.new.items parts) }
{
    let head = words[HEAD];
    let party = &mut parties[i];
    party.view.know_head(head);
    Out::Number { value: head }
}

// The place of a position's word.
pub(crate) fn place_of(slots: u64, at: u64) -> usize
    requires some { 0 < slots }
    requires few { slots ≤ 2 ^ 48 }
    ensures value { result ≡ 6 + at % slots }
    ensures within { result < 6 + slots }
{
    BASE + (at % slots) as usize
}

// A store of a word.
pub(crate) fn store_word(
    slots: u64,
    words: &mut Vec<u64>,
    parties: &mut Vec<Party>,
    i: usize,
    at: u64,
) -> Result<Out, AllocError>
    requires some { 0 < slots }
    requires few { slots ≤ 2 ^ 48 }
    requires words { length words.old.items ≡ 6 + slots }
    requires live { IsLiveAt parties.old.items i }
    requires storable { All (λ x. IsStorable x.edge) (slice_index_or parties.old.items i absent).view.pending }
    ensures row { IfOk result (λ out. (first : ℕ) (parts : Parts) →
        Row (machine_of slots first words.old.items parties.old.items parts) i (StoreWord at) out
        (machine_of slots first words.new.items parties.new.items parts)) }
    ensures err_words { OnErr result (words.new.items ≡ words.old.items) }
    ensures err_parties { OnErr result (parties.new.items ≡ parties.old.items) }
{
    let party = &mut parties[i];
    let front = party.view.archived.min(party.view.durable);
    if slots <= at.saturating_sub(front) {
        return Ok(Out::Refused);
    }
    let Some(entry) = lists::entry_at(&party.view.pending, at) else {
        return Ok(Out::Refused);
    };
    party.view.store(entry)?;
    words[place_of(slots, at)] = encode(entry.edge, at, slots);
    Ok(Out::Done)
}

// A word read in its turn.
pub(crate) fn load_ordered(
    slots: u64,
    words: &[u64],
    parties: &mut Vec<Party>,
    i: usize,
    at: u64,
) -> Out
    requires some { 0 < slots }
    requires few { slots ≤ 2 ^ 48 }
    requires words { length words.now ≡ 6 + slots }
    requires live { IsLiveAt parties.old.items i }
    requires taken { (slice_index_or parties.old.items i absent).view.taken ≤ 2 ^ 48 }
    ensures { (first : ℕ) (parts : Parts) →
        Row (machine_of slots first words.now parties.old.items parts) i (LoadOrdered at) result (machine_of slots first words.now parties.new.items parts) }
{
    let party = &mut parties[i];
    if !conditions::can_take(words, &party.view, at) {
        return Out::Refused;
    }
    let word = words[place_of(slots, at)];
    if matched(word, at, slots) {
        party.view.take(at);
    } else {
        party.view.stay();
    }
    Out::Word { word }
}

// A split of a new party.
pub(crate) fn split(alloc: Global, parties: &mut Vec<Party>, i: usize) -> Result<Out, AllocError>
    requires live { IsLiveAt parties.old.items i }
    ensures row { IfOk result (λ out. (slots first : ℕ) (words : List ℕ) (parts : Parts) →
        Row (machine_of slots first words parties.old.items parts) i Split out (machine_of slots first words parties.new.items parts)) }
    ensures err { OnErr result (parties.new.items ≡ parties.old.items) }
{
    let count = parties.len();
    if PARTIES <= count {
        return Ok(Out::Refused);
    }
    let new = parties[i].split_off(alloc);
    parties.push(new)?;
    let party = &mut parties[i];
    party.view.stay();
    Ok(Out::Number {
        value: count as u64,
    })
}

// Whether a party may be joined into another.
fn may_join(other: &Party) -> bool
    ensures { IsTrue result ↔ (CanJoin other.now.view × IsSession other.now.view × HasNoTurn other.now.stake) }
{
    conditions::can_join(&other.view)
        && conditions::is_session(&other.view)
        && conditions::has_no_turn(&other.stake)
}

// A join of another party.
pub(crate) fn join(
    alloc: Global,
    parties: &mut Vec<Party>,
    i: usize,
    j: usize,
) -> Result<Out, AllocError>
    requires live { IsLiveAt parties.old.items i }
    ensures row { IfOk result (λ out. (slots first : ℕ) (words : List ℕ) (parts : Parts) →
        Row (machine_of slots first words parties.old.items parts) i (Join j) out (machine_of slots first words parties.new.items parts)) }
    ensures err { OnErr result (parties.new.items ≡ parties.old.items) }
{
    if j == i || !conditions::is_live(parties, j) || !may_join(&parties[j]) {
        return Ok(Out::Refused);
    }
    let mut other = mem::replace(&mut parties[j], Party::absent(alloc));
    let party = &mut parties[i];
    match party.join(alloc, &mut other) {
        Ok(()) => Ok(Out::Done),
        Err(failed) => {
            parties[j] = other;
            Err(failed)
        }
    }
}
