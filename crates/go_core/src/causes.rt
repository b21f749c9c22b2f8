// The acts on the flag.
ghost use Rattle.std.specs.Prelude.{◌≤◌, ℕ, length};
ghost use Rattle.go_core.specs.declared.act.Act.TheVariants.{LoadFlag, StoreFlag};
ghost use Rattle.go_core.specs.declared.home.Parts.{Parts};
ghost use Rattle.go_core.specs.Machine.{Row, machine_of, IsLiveAt};

use crate::act::Out;
use crate::conditions;
use crate::party::Party;
use crate::words::FLAG;

// A load of the flag.
pub(crate) fn load_flag(words: &[u64], parties: &mut Vec<Party>, i: usize) -> Out
    requires words { 4 ≤ length words.now }
    requires live { IsLiveAt parties.old.items i }
    ensures { (slots first : ℕ) (parts : Parts) →
        Row (machine_of slots first words.now parties.old.items parts) i LoadFlag result (machine_of slots first words.now parties.new.items parts) }
{
    let flag = words[FLAG];
    let party = &mut parties[i];
    party.view.stay();
    Out::Number { value: flag }
}

// A store of the flag.
pub(crate) fn store_flag(words: &mut Vec<u64>, parties: &mut Vec<Party>, i: usize, why: u64) -> Out
    requires words { 4 ≤ length words.old.items }
    requires live { IsLiveAt parties.old.items i }
    ensures { (slots first : ℕ) (parts : Parts) →
        Row (machine_of slots first words.old.items parties.old.items parts) i (StoreFlag why) result
        (machine_of slots first words.new.items parties.new.items parts) }
{
    if !conditions::is_cause(why) {
        return Out::Refused;
    }
    let party = &mut parties[i];
    party.view.raise(why);
    words[FLAG] = why;
    Out::Done
}
