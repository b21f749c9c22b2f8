// One step of a party, over the words, the parties and the parts.
ghost use Rattle.std.specs.Prelude.{◌≡◌, ℕ, IfOk, OnErr};
ghost use Rattle.go_core.specs.Machine.{Row, IsReady, machine_of};

use crate::act::{Act, Event, Out};
use crate::home::Parts;
use crate::party::Party;
use crate::{causes, conditions, copies, front_steps, steps, turns};
use std::alloc::{AllocError, Global};

// Does the step of one party, or refuses it.
pub(crate) fn one(
    alloc: Global,
    slots: u64,
    words: &mut Vec<u64>,
    parties: &mut Vec<Party>,
    parts: &mut Parts,
    event: &Event,
) -> Result<Out, AllocError>
    requires ready { IsReady (machine_of slots 0 words.old.items parties.old.items parts.old) event.now.party }
    ensures row { IfOk result (λ out. (first : ℕ) →
        Row (machine_of slots first words.old.items parties.old.items parts.old) event.now.party event.now.act out
        (machine_of slots first words.new.items parties.new.items parts.new)) }
    ensures err_words { OnErr result (words.new.items ≡ words.old.items) }
    ensures err_parties { OnErr result (parties.new.items ≡ parties.old.items) }
    ensures err_parts { OnErr result (parts.new ≡ parts.old) }
{
    let i = event.party as usize;
    if !conditions::is_live(parties, i) {
        return Ok(Out::Refused);
    }
    match &event.act {
        Act::Claim { edges } => steps::claim(alloc, words, parties, i, edges),
        Act::LoadHead => Ok(steps::load_head(words, parties, i)),
        Act::LoadArchived => front_steps::load_front(alloc, words, parties, i, true),
        Act::LoadDurable => front_steps::load_front(alloc, words, parties, i, false),
        Act::StoreWord { at } => steps::store_word(slots, words, parties, i, *at),
        Act::LoadOrdered { at } => Ok(steps::load_ordered(slots, words, parties, i, *at)),
        Act::LoadTentative { at } => copies::load_tentative(slots, words, parties, i, *at),
        Act::StoreArchived { front } => Ok(front_steps::store_front(
            words, parties, i, true, *front,
        )),
        Act::StoreDurable { front } => Ok(front_steps::store_front(
            words, parties, i, false, *front,
        )),
        Act::TakeTurn { part } => Ok(turns::take_turn(words, parties, parts, i, *part)),
        Act::PartOut { part } => Ok(turns::take_out(parties, parts, i, *part)),
        Act::PartIn { part, state } => turns::put_in(alloc, parties, parts, i, *part, state),
        Act::GiveTurn { part } => turns::give_turn(alloc, words, parties, parts, i, *part),
        Act::LoadFlag => Ok(causes::load_flag(words, parties, i)),
        Act::StoreFlag { why } => Ok(causes::store_flag(words, parties, i, *why)),
        Act::Split => steps::split(alloc, parties, i),
        Act::Join { other } => steps::join(alloc, parties, i, *other as usize),
    }
}
