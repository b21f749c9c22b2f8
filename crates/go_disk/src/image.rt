// An image of a disk in memory, chosen by a number.
ghost use Rattle.std.specs.Prelude.{◌≡◌, ℕ, ◌+◌, ◌<◌, ◌≤◌, All, length, slice_index, OnOk};
ghost use Rattle.go_disk.specs.Image.{IsImage, IsOutside, greatest_end};

use crate::span::Span;
use std::alloc::AllocError;

/// Turns stable bytes into an image of them, after writes to these spans. `seen` is what the writes left for a read.
pub(crate) fn make_image(
    out: &mut Vec<u8>,
    spans: &[Span],
    seen: &[u8],
    pick: u64,
) -> Result<(), AllocError>
    ensures { OnOk result (IsImage out.old.items spans.now out.new.items) }
{
    let len = length_between(out.len(), spans, pick);
    out.resize(len, 0)?;
    tear(out, spans, seen, pick);
    Ok(())
}

// A length from the stable one up to the greatest end of a span.
fn length_between(stable: usize, spans: &[Span], pick: u64) -> usize
    ensures at_least { stable ≤ result }
    ensures at_most { result ≤ greatest_end stable spans.now }
{
    let mut end = stable;
    for span in spans {
        end = end.max(span.to);
    }
    let spread = end - stable;
    if spread == 0 {
        return stable;
    }
    match pick % 3 {
        0 => end,
        1 => stable,
        _ => stable + mixed(pick) as usize % spread,
    }
}

// Leaves something in each span.
fn tear(out: &mut [u8], spans: &[Span], seen: &[u8], pick: u64)
    ensures elsewhere { (place : ℕ) → All (IsOutside place) spans.now → slice_index out.new place ≡ slice_index out.old place }
{
    let mut state = mixed(pick);
    for span in spans {
        state = mixed(state);
        tear_span(out, span.from, span.to, seen, state);
    }
}

// Leaves in one span what was there, what was written, or something of each and other bytes.
fn tear_span(out: &mut [u8], from: usize, to: usize, seen: &[u8], seed: u64)
    ensures before { (place : ℕ) → place < from → slice_index out.new place ≡ slice_index out.old place }
    ensures behind { (place : ℕ) → to ≤ place → slice_index out.new place ≡ slice_index out.old place }
{
    let end = to.min(out.len());
    let mut state = seed;
    for place in from..end {
        state = mixed(state);
        let written = seen.get(place).copied().unwrap_or(0);
        out[place] = torn_byte(out[place], written, seed, state);
    }
}

// The byte that was there or the one that was written, by the seed the same for the whole span, or else any.
fn torn_byte(before: u8, written: u8, seed: u64, state: u64) -> u8 {
    match seed >> 62 {
        0 => before,
        1 => written,
        _ => match state >> 62 {
            0 => before,
            1 => written,
            _ => (state >> 56) as u8,
        },
    }
}

// The next number of a sequence that looks like chance.
fn mixed(state: u64) -> u64 {
    state
        .wrapping_mul(6_364_136_223_846_793_005)
        .wrapping_add(1_442_695_040_888_963_407)
}
