// Finding the block of a log that has an entry, by halving, and the place of its word in the file.
ghost use Rattle.std.specs.Prelude.{◌≡◌, ◌+◌, ◌<◌, ◌^◌, length, take};
ghost use Rattle.go_durable.specs.LogState.{AreInRow, entries_at};
ghost use Rattle.go_durable.specs.Ranging.{HasEntry};
ghost use Rattle.go_durable.specs.Runs.{AreBlocks, place_of_word};

use crate::limits::WORD_LENGTH;
use go_blocks::{BlockPlace, FIRST_GATE, WORDS_AT};

// The number of the block that has this entry.
pub(crate) fn block_of(places: &[BlockPlace], entry: u64) -> usize
    requires in_row { AreInRow places.now }
    ensures { entry < entries_at places.now → HasEntry places.now result entry }
{
    let mut low = 0;
    let mut high = places.len();
    while low + 1 < high {
        let middle = low + (high - low) / 2;
        if entries_before(places, middle) <= entry {
            low = middle;
        } else {
            high = middle;
        }
    }
    low
}

// How many entries the blocks before this one have. Its gate tells, since each of them takes so many bytes beside its words.
fn entries_before(places: &[BlockPlace], number: usize) -> u64
    requires within { number < length places.now }
    requires in_row { AreInRow places.now }
    ensures { result ≡ entries_at (take number places.now) }
{
    (places[number].gate - FIRST_GATE - WORDS_AT * number as u64) / WORD_LENGTH as u64
}

// How many entries the blocks up to this one have, its own among them.
pub(crate) fn entries_up_to(places: &[BlockPlace], number: usize) -> u64
    requires within { number < length places.now }
    requires blocks { AreBlocks places.now }
    ensures { result ≡ entries_at (take (number + 1) places.now) }
{
    entries_before(places, number) + places[number].count as u64
}

// Where the word of an entry stands in the file, by the number of its block: behind the frames of the blocks up to this one.
pub(crate) fn word_at(number: usize, entry: u64) -> u64
    requires block { number < 2 ^ 32 }
    requires entry { entry < 2 ^ 32 }
    ensures { result ≡ place_of_word number entry }
{
    FIRST_GATE + WORDS_AT * (number as u64 + 1) + WORD_LENGTH as u64 * entry
}
