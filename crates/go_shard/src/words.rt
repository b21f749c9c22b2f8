// The words of a vertex, read where they lie in its chain.
ghost use Rattle.std.specs.Prelude.{◌≡◌, ◌-◌, ◌≤◌, length, take, drop, IfOk, OnOk};
ghost use Rattle.go_net.specs.Net.{net_of};

use go_chunk::Chain;
use go_net::{take_in, take_in_turns};
use std::alloc::{AllocError, Global};

/// Takes the first words of a chain, so many of them, into the neighbours of their vertex.
///
/// After want of memory nothing is claimed of the list.
pub(crate) fn take_first(
    alloc: Global,
    chain: &Chain,
    count: usize,
    list: &mut Vec<u32>,
) -> Result<(), AllocError>
    requires { count ≤ length chain.now.words }
    ensures { OnOk result (list.new.items ≡ net_of list.old.items (take count chain.now.words)) }
{
    let mut place = 0;
    while place < count {
        let words = chain.slice(place, count);
        let taken = take_in_turns(words, list)?;
        place += taken;
        if taken < words.len() {
            // Deletions from a long list are taken in together, so their words are put together.
            let rest = between(alloc, chain, place, count)?;
            return take_in(alloc, &rest, list);
        }
    }
    Ok(())
}

// The words of a chain between two places, in one list.
fn between(alloc: Global, chain: &Chain, from: usize, to: usize) -> Result<Vec<u64>, AllocError>
    requires order { from ≤ to }
    requires inside { to ≤ length chain.now.words }
    ensures { IfOk result (λ words. words.items ≡ take (to - from) (drop from chain.now.words)) }
{
    let mut words = Vec::with_capacity(alloc, to - from)?;
    let mut place = from;
    while place < to {
        let slice = chain.slice(place, to);
        words.extend_from_slice(slice)?;
        place += slice.len();
    }
    Ok(words)
}

/// The words of a chain behind its first ones, in a chain of their own, which has room for few more.
pub(crate) fn tail_behind(alloc: Global, chain: &Chain, count: usize) -> Result<Chain, AllocError>
    requires { count ≤ length chain.now.words }
    ensures words { IfOk result (λ tail. tail.words ≡ drop count chain.now.words) }
    ensures room { IfOk result (λ tail. tail.spare ≤ 255) }
{
    let mut tail = Chain::new(alloc);
    let end = chain.len();
    tail.reserve(end - count)?;
    let mut place = count;
    while place < end {
        let words = chain.slice(place, end);
        tail.extend_from_slice(words);
        place += words.len();
    }
    Ok(tail)
}
