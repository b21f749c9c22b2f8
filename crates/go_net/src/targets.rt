// The numbers that copies are counted of: those of deletions, each once and in rising order.
ghost use Rattle.std.specs.Prelude.{◌≡◌, ◌<◌, ◌≤◌, ◌^◌, All, true, IfOk, MatchOption, Contains};
ghost use Rattle.std.specs.List.{range_with_len};
ghost use Rattle.std.specs.List.Sorted.{IsStrictlyIncreasing};
ghost use Rattle.go_word.specs.Word.{decode};
ghost use Rattle.go_net.specs.Tally.{HasTargetsOf, StandsAt};

use go_word::decode;
use std::alloc::{AllocError, Global};

/// The destinations of the deletions among the words; where these are small numbers, all numbers up to the
/// greatest, so that each stands at its own place.
pub(crate) fn targets_of(alloc: Global, words: &[u64]) -> Result<Vec<u32>, AllocError>
    ensures all { IfOk result (λ v. HasTargetsOf v.items words.now) }
    ensures rising { IfOk result (λ v. IsStrictlyIncreasing v.items) }
{
    let end = end_of(words);
    if end <= words.len() {
        all_below(alloc, end)
    } else {
        deleted(alloc, words)
    }
}

// The number behind the greatest destination of a deletion, and 0 where there is none.
fn end_of(words: &[u64]) -> usize
    ensures above { All (λ word. (decode word).del ≡ true → (decode word).dst < result) words.now }
    ensures small { result ≤ 2 ^ 32 }
{
    let mut end = 0;
    for word in words {
        let edge = decode(*word);
        if edge.del {
            end = end.max(edge.dst as usize + 1);
        }
    }
    end
}

// All numbers below the end.
fn all_below(alloc: Global, end: usize) -> Result<Vec<u32>, AllocError>
    requires { end ≤ 2 ^ 32 }
    ensures { IfOk result (λ v. v.items ≡ range_with_len 0 end) }
{
    let mut numbers = Vec::with_capacity(alloc, end)?;
    for number in 0..end {
        numbers.push(number as u32)?;
    }
    Ok(numbers)
}

// The destinations of the deletions among the words, sorted.
fn deleted(alloc: Global, words: &[u64]) -> Result<Vec<u32>, AllocError>
    ensures all { IfOk result (λ v. HasTargetsOf v.items words.now) }
    ensures rising { IfOk result (λ v. IsStrictlyIncreasing v.items) }
{
    let mut targets = Vec::new(alloc);
    for word in words {
        let edge = decode(*word);
        if edge.del {
            targets.push(edge.dst)?;
        }
    }
    targets.sort_unstable();
    targets.dedup();
    Ok(targets)
}

/// Where `d` stands among the targets.
pub(crate) fn place_of(targets: &[u32], d: u32) -> Option<usize>
    requires { IsStrictlyIncreasing targets.now }
    ensures { MatchOption result (¬ Contains targets.now d) (λ place. StandsAt targets.now d place) }
{
    let own = d as usize;
    if own < targets.len() && targets[own] == d {
        return Some(own);
    }
    targets.binary_search(&d).ok()
}
