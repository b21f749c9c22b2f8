// A generator of entries, for a large input from a number.
ghost use Rattle.std.specs.Prelude.{◌≡◌, ◌≤◌, ◌+◌, ◌*◌, ℕ, length, OnOk};
ghost use Rattle.go_loader.specs.Generated.{after_words, pair, after_entries, entry, generated, IsGenerating};

use go_word::Edge;
use rand_core::SeedableRng;
use rand_core::utils::NextWord;
use rand_pcg::Pcg32;
use std::alloc::AllocError;

/// Gives so many entries over the vertices below `v` into `out`, which is cleared first: the same ones for the same number `x` always.
///
/// Each eighth entry deletes the edge that stands four before it; the others add an edge, whose source and destination are the next two
/// words of a PCG generator that `x` seeds, modulo `v` (O'Neill, "PCG: a family of simple fast space-efficient statistically good
/// algorithms for random number generation", XSH RR 64/32).
pub fn generate(edges: u32, x: u64, v: u32, out: &mut Vec<Edge>) -> Result<(), AllocError>
    requires some_vertex { 1 ≤ v }
    ensures { OnOk result (out.new.items ≡ generated edges x v) }
{
    out.clear();
    let count = edges as usize;
    out.reserve_exact(count)?;
    let mut words = Pcg32::seed_from_u64(x);
    while out.len() < count {
        let edge = next_entry(out, &mut words, v);
        out.push(edge)?;
    }
    Ok(())
}

// The entry behind those that there are.
fn next_entry(entries: &[Edge], words: &mut Pcg32, v: u32) -> Edge
    requires { 1 ≤ v }
    ensures next { (x : ℕ) → IsGenerating x v entries.now words.old → result ≡ entry x v (length entries.now) }
    ensures on { (x : ℕ) → IsGenerating x v entries.now words.old → words.new ≡ after_entries x (length entries.now + 1) }
{
    let place = entries.len();
    if place % 8 == 7 {
        Edge {
            del: true,
            ..entries[place - 4]
        }
    } else {
        draw(words, v)
    }
}

// The edge that the next two words draw.
fn draw(words: &mut Pcg32, v: u32) -> Edge
    requires { 1 ≤ v }
    ensures edge { (x k : ℕ) → words.old ≡ after_words x (2 * k) → result ≡ pair x v k }
    ensures on { (x k : ℕ) → words.old ≡ after_words x (2 * k) → words.new ≡ after_words x (2 * (k + 1)) }
{
    let src = words.next_word() % v;
    let dst = words.next_word() % v;
    Edge {
        del: false,
        src,
        dst,
    }
}
