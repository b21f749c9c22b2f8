// The fold of the entries of a vertex.
ghost use Rattle.std.specs.Prelude.{◌≡◌, ℕ, All, fold, map, true, OnOk};
ghost use Rattle.go_word.specs.Log.{leaves};
ghost use Rattle.go_word.specs.Neighbours.{after_entry};
ghost use Rattle.go_word.specs.Word.{decode};
ghost use Rattle.go_net.specs.Net.{net_of};

use crate::count::by_counts;
use crate::turns::take_in_turns;
use std::alloc::{AllocError, Global};

/// Gives the neighbours of a vertex after the entries in `tail`, from those in `base` before, into `out`,
/// which is cleared first.
///
/// Each word is read as an entry of the vertex in hand. `alloc` serves for what is dropped at the end.
/// After want of memory nothing is claimed of `out`.
pub fn net(alloc: Global, base: &[u32], tail: &[u64], out: &mut Vec<u32>) -> Result<(), AllocError>
    ensures exact { OnOk result (out.new.items ≡ net_of base.now tail.now) }

    // For words of one vertex this is the fold of that vertex.
    ensures of_vertex { (s : ℕ) → All (λ w. leaves s (decode w) ≡ true) tail.now →
        OnOk result (out.new.items ≡ fold (after_entry s) base.now (map decode tail.now)) }
{
    out.clear();
    out.extend_from_slice(base)?;
    take_in(alloc, tail, out)
}

/// Takes the entries in `words` into the neighbours of a vertex.
///
/// Each word is read as an entry of the vertex in hand. `alloc` serves for what is dropped at the end.
/// After want of memory nothing is claimed of the list.
pub fn take_in(alloc: Global, words: &[u64], list: &mut Vec<u32>) -> Result<(), AllocError>
    ensures exact { OnOk result (list.new.items ≡ net_of list.old.items words.now) }

    // For words of one vertex this is the fold of that vertex.
    ensures of_vertex { (s : ℕ) → All (λ w. leaves s (decode w) ≡ true) words.now →
        OnOk result (list.new.items ≡ fold (after_entry s) list.old.items (map decode words.now)) }
{
    let taken = take_in_turns(words, list)?;
    if taken < words.len() {
        by_counts(alloc, &words[taken..], list)?;
    }
    Ok(())
}
