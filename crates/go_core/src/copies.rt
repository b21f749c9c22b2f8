// The act of a copy of what is newest: a word read ahead.
ghost use Rattle.std.specs.Prelude.{
  ◌≡◌,
  ℕ,
  ◌+◌,
  ◌^◌,
  ◌<◌,
  ◌≤◌,
  length,
  IfOk,
  OnErr,
};
ghost use Rattle.go_core.specs.declared.act.Act.TheVariants.{LoadTentative};
ghost use Rattle.go_core.specs.declared.home.Parts.{Parts};
ghost use Rattle.go_core.specs.Machine.{Row, machine_of, IsLiveAt};

use crate::act::Out;
use crate::party::Party;
use crate::{conditions, steps};
use std::alloc::AllocError;

// A word read ahead of its turn.
pub(crate) fn load_tentative(
    slots: u64,
    words: &[u64],
    parties: &mut Vec<Party>,
    i: usize,
    at: u64,
) -> Result<Out, AllocError>
    requires some { 0 < slots }
    requires few { slots ≤ 2 ^ 48 }
    requires words { length words.now ≡ 6 + slots }
    requires live { IsLiveAt parties.old.items i }
    ensures row { IfOk result (λ out. (first : ℕ) (parts : Parts) →
        Row (machine_of slots first words.now parties.old.items parts) i (LoadTentative at) out (machine_of slots first words.now parties.new.items parts)) }
    ensures err { OnErr result (parties.new.items ≡ parties.old.items) }
{
    let party = &mut parties[i];
    if !conditions::can_read_ahead(slots, &party.view, at) {
        return Ok(Out::Refused);
    }
    let word = words[steps::place_of(slots, at)];
    party.view.read_ahead(at, word)?;
    Ok(Out::Word { word })
}
