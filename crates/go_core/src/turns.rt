// The acts on the parts: a turn is taken and given back, and by it a part is taken out and put in.
ghost use Rattle.std.specs.Prelude.{
  ◌≡◌,
  ◌≤◌,
  ◌<◌,
  ℕ,
  List,
  length,
  IfOk,
  OnErr,
  IsTrue,
  ◌↔◌,
  ◌==◌,
  false,
};
ghost use Rattle.go_core.specs.declared.act.Act.TheVariants.{
  TakeTurn,
  PartOut,
  PartIn,
  GiveTurn,
};
ghost use Rattle.go_core.specs.Machine.{Row, machine_of, IsLiveAt};
ghost use Rattle.go_core.specs.Turns.{home_of, turn_place as place_of_turn};
ghost use Rattle.go_core.specs.Acts.{HasOut, IsLawful};

use crate::act::Out;
use crate::conditions;
use crate::home::{Home, Parts};
use crate::part::PartState;
use crate::party::Party;
use crate::pin::Pins;
use crate::words::TURNS;
use std::alloc::{AllocError, Global};

// The index of a part's turn word.
fn turn_place(shard: bool) -> usize
    ensures value { result ≡ place_of_turn shard }
    ensures within { result < 6 }
{
    if shard { TURNS } else { TURNS + 1 }
}

// A turn is taken, where nobody has it.
pub(crate) fn take_turn(
    words: &mut Vec<u64>,
    parties: &mut Vec<Party>,
    parts: &Parts,
    i: usize,
    part: u32,
) -> Out
    requires words { 6 ≤ length words.old.items }
    requires live { IsLiveAt parties.old.items i }
    ensures { (slots first : ℕ) →
        Row (machine_of slots first words.old.items parties.old.items parts.now) i (TakeTurn part) result
        (machine_of slots first words.new.items parties.new.items parts.now) }
{
    let party = &mut parties[i];
    if !conditions::can_take_turn(parts, &party.stake, part) {
        return Out::Refused;
    }
    let shard = part == 0;
    let place = turn_place(shard);
    let turn = words[place];
    party.view.stay();
    if turn == 0 {
        party.stake.take_turn(shard);
        words[place] = 1;
    }
    Out::Number { value: turn }
}

// A part is taken out.
pub(crate) fn take_out(parties: &mut Vec<Party>, parts: &mut Parts, i: usize, part: u32) -> Out
    requires live { IsLiveAt parties.old.items i }
    ensures { (slots first : ℕ) (words : List ℕ) →
        Row (machine_of slots first words parties.old.items parts.old) i (PartOut part) result (machine_of slots first words parties.new.items parts.new) }
{
    let party = &mut parties[i];
    if !conditions::has_at_home(parts, &party.stake, part) {
        return Out::Refused;
    }
    party.view.stay();
    parts.take_out(part == 0);
    Out::Done
}

// Whether a part may be put in.
fn may_put_in(parts: &Parts, party: &Party, part: u32, state: &PartState) -> bool
    ensures { IsTrue result ↔ (HasOut parts.now party.now.stake part
        × IsLawful (part == 0) party.now.view party.now.stake (home_of (part == 0) parts.now).part state.now) }
{
    let shard = part == 0;
    conditions::has_out(parts, &party.stake, part)
        && conditions::is_lawful(shard, party, &parts.home(shard).part, state)
}

// A part is put in.
pub(crate) fn put_in(
    alloc: Global,
    parties: &mut Vec<Party>,
    parts: &mut Parts,
    i: usize,
    part: u32,
    state: &PartState,
) -> Result<Out, AllocError>
    requires live { IsLiveAt parties.old.items i }
    ensures row { IfOk result (λ out. (slots first : ℕ) (words : List ℕ) →
        Row (machine_of slots first words parties.old.items parts.old) i (PartIn part state.now) out
        (machine_of slots first words parties.new.items parts.new)) }
    ensures err_parties { OnErr result (parties.new.items ≡ parties.old.items) }
    ensures err_parts { OnErr result (parts.new ≡ parts.old) }
{
    let party = &mut parties[i];
    let shard = part == 0;
    if !may_put_in(parts, party, part, state) {
        return Ok(Out::Refused);
    }
    let home = home_with(alloc, state)?;
    let old = parts.home(shard).part.pins.as_slice();
    party
        .stake
        .put_in(alloc, shard, old, state.pins.as_slice())?;
    party.view.stay();
    parts.set_home(shard, home);
    Ok(Out::Done)
}

// A turn is given back.
pub(crate) fn give_turn(
    alloc: Global,
    words: &mut Vec<u64>,
    parties: &mut Vec<Party>,
    parts: &Parts,
    i: usize,
    part: u32,
) -> Result<Out, AllocError>
    requires words { 6 ≤ length words.old.items }
    requires live { IsLiveAt parties.old.items i }
    ensures row { IfOk result (λ out. (slots first : ℕ) →
        Row (machine_of slots first words.old.items parties.old.items parts.now) i (GiveTurn part) out
        (machine_of slots first words.new.items parties.new.items parts.now)) }
    ensures err_words { OnErr result (words.new.items ≡ words.old.items) }
    ensures err_parties { OnErr result (parties.new.items ≡ parties.old.items) }
{
    let party = &mut parties[i];
    if !conditions::has_at_home(parts, &party.stake, part) {
        return Ok(Out::Refused);
    }
    let shard = part == 0;
    party
        .stake
        .give_turn(alloc, shard, &parts.home(shard).part)?;
    party.view.stay();
    words[turn_place(shard)] = 0;
    Ok(Out::Done)
}

// A home with a copy of a part in it.
fn home_with(alloc: Global, state: &PartState) -> Result<Home, AllocError>
    ensures { IfOk result (λ home. home ≡ record { part = state.now; out = false }) }
{
    let pins = Pins::of(alloc, state.pins.as_slice())?;
    Ok(Home {
        part: PartState {
            pins,
            front: state.front,
            cut: state.cut,
        },
        out: false,
    })
}
