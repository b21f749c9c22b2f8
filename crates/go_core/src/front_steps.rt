// The acts on the two fronts: the shard's is the archived one, the file's the durable one.
ghost use Rattle.std.specs.Prelude.{◌≡◌, ◌<◌, ◌≤◌, ℕ, length, IfOk, OnErr};
ghost use Rattle.go_core.specs.declared.home.Parts.{Parts};
ghost use Rattle.go_core.specs.Fronts.{front_place as place_of_front, front_load, front_store};
ghost use Rattle.go_core.specs.Machine.{Row, machine_of, IsLiveAt};

use crate::act::Out;
use crate::conditions;
use crate::party::Party;
use crate::words::{ARCHIVED, DURABLE};
use std::alloc::{AllocError, Global};

// The index of a front's word.
fn front_place(shard: bool) -> usize
    ensures value { result ≡ place_of_front shard }
    ensures within { result < 3 }
{
    if shard { ARCHIVED } else { DURABLE }
}

// A load of a front.
pub(crate) fn load_front(
    alloc: Global,
    words: &[u64],
    parties: &mut Vec<Party>,
    i: usize,
    shard: bool,
) -> Result<Out, AllocError>
    requires words { 4 ≤ length words.now }
    requires live { IsLiveAt parties.old.items i }
    ensures row { IfOk result (λ out. (slots first : ℕ) (parts : Parts) →
        Row (machine_of slots first words.now parties.old.items parts) i (front_load shard) out
        (machine_of slots first words.now parties.new.items parts)) }
    ensures err { OnErr result (parties.new.items ≡ parties.old.items) }
{
    let front = words[front_place(shard)];
    let party = &mut parties[i];
    party.view.know_front(alloc, shard, front)?;
    Ok(Out::Number { value: front })
}

// A store of a front.
pub(crate) fn store_front(
    words: &mut Vec<u64>,
    parties: &mut Vec<Party>,
    i: usize,
    shard: bool,
    front: u64,
) -> Out
    requires words { 4 ≤ length words.old.items }
    requires live { IsLiveAt parties.old.items i }
    ensures { (slots first : ℕ) (parts : Parts) →
        Row (machine_of slots first words.old.items parties.old.items parts) i (front_store shard front) result
        (machine_of slots first words.new.items parties.new.items parts) }
{
    let party = &mut parties[i];
    if !conditions::can_move(shard, words, &party.view, front)
        || !conditions::has_stood(shard, &party.stake, front)
    {
        return Out::Refused;
    }
    party.view.move_front(shard, front);
    words[front_place(shard)] = front;
    Out::Done
}
