// How a machine begins.
ghost use Rattle.std.specs.Prelude.{
  ◌≡◌,
  ◌+◌,
  ◌^◌,
  ◌<◌,
  ◌≤◌,
  map,
  replicate,
  IfOk,
};
ghost use Rattle.go_core.specs.Opening.{AreOpening, opening_party};

use crate::act::Role;
use crate::party::Party;
use crate::words::{ARCHIVED, DURABLE, HEAD, TURNS};
use go_word::blank;
use std::alloc::{AllocError, Global};

// The words before the first slot: the four shared ones and two turns.
pub(crate) const BASE: usize = TURNS + 2;

// Writes the words of the beginning over zeros, by the index of the first slot.
fn begin(words: &mut [u64], base: usize, slots: u64, first: u64)
    requires four { 4 ≤ base }
    requires small { base ≤ 2 ^ 48 }
    requires some { 0 < slots }
    requires few { first + slots ≤ 2 ^ 48 }
    requires zeros { words.old ≡ replicate (base + slots) 0 }
    ensures { AreOpening (record { slots = slots; base = base; first = first }) words.new }
{
    words[HEAD] = first;
    words[ARCHIVED] = first;
    words[DURABLE] = first;
    for p in first..first + slots {
        words[base + (p % slots) as usize] = blank(p, slots);
    }
}

/// The words of a ring at the beginning: the four shared ones, the turns up to the index of the first slot, and the slots.
pub fn ring_words(
    alloc: Global,
    base: usize,
    slots: u64,
    first: u64,
) -> Result<Vec<u64>, AllocError>
    requires four { 4 ≤ base }
    requires small { base ≤ 2 ^ 48 }
    requires some { 0 < slots }
    requires few { first + slots ≤ 2 ^ 48 }
    ensures { IfOk result (λ words. AreOpening (record { slots = slots; base = base; first = first }) words.items) }
{
    let mut words = vec![in alloc; 0; base + slots as usize]?;
    begin(&mut words, base, slots, first);
    Ok(words)
}

// The parties at the beginning.
pub(crate) fn parties(alloc: Global, first: u64, roles: &[Role]) -> Result<Vec<Party>, AllocError>
    ensures { IfOk result (λ parties. parties.items ≡ map (opening_party first) roles.now) }
{
    let mut parties = Vec::new(alloc);
    for role in roles {
        parties.push(Party::opening(alloc, first, *role))?;
    }
    Ok(parties)
}
