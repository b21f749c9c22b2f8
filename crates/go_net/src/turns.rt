// The fold turn by turn, as long as that is quick.
ghost use Rattle.std.specs.Prelude.{◌≡◌, ◌≤◌, length, take, IfOk, OnOk};
ghost use Rattle.go_word.specs.Neighbours.{after_entry};
ghost use Rattle.go_net.specs.Net.{net_of};

use go_word::{Edge, decode, remove_first};
use std::alloc::AllocError;

// In so many neighbours it is quick to look for the one that a deletion takes.
const FEW: usize = 64;

/// Takes words into the neighbours of a vertex, one after another up to a deletion from a long list, and gives how many
/// were taken.
///
/// After want of memory nothing is claimed of the list.
pub fn take_in_turns(words: &[u64], list: &mut Vec<u32>) -> Result<usize, AllocError>
    ensures within { IfOk result (λ taken. taken ≤ length words.now) }
    ensures taken { IfOk result (λ taken. list.new.items ≡ net_of list.old.items (take taken words.now)) }
{
    for place in 0..words.len() {
        let edge = decode(words[place]);
        if edge.del && FEW < list.len() {
            return Ok(place);
        }
        apply(&edge, list)?;
    }
    Ok(words.len())
}

// Takes one entry into the list.
fn apply(edge: &Edge, list: &mut Vec<u32>) -> Result<(), AllocError>
    ensures { OnOk result (list.new.items ≡ after_entry edge.now.src list.old.items edge.now) }
{
    if edge.del {
        remove_first(list, edge.dst);
    } else {
        list.push(edge.dst)?;
    }
    Ok(())
}
