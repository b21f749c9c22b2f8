// Runs of blocks: the stretches of a log's file that are read by one call each.
ghost use Rattle.std.specs.Prelude.{◌≡◌, ◌+◌, ◌-◌, ◌*◌, ◌<◌, ◌≤◌, ◌^◌, List, ℕ, ◌++◌, length, min, take, vec_len, vec_capacity};
ghost use Rattle.go_word.specs.declared.edge.Edge.{Edge};
ghost use Rattle.go_blocks.specs.declared.layout.TheConstants.{COUNT_LIMIT};
ghost use Rattle.go_disk.specs.Disk.{Shows};
ghost use Rattle.go_durable.specs.LogState.{entries_at};
ghost use Rattle.go_durable.specs.Ranging.{AddsRange, HasEntry, entries_in};
ghost use Rattle.go_durable.specs.Runs.{AddsCount, AreBlocks, GoesOn, HasWords, IsRun, RunsFrom, place_of_word, run_length};

use crate::finding::{block_of, entries_up_to, word_at};
use crate::limits::WORD_LENGTH;
use byteorder::{ByteOrder, LittleEndian};
use go_blocks::BlockPlace;
use go_word::{Edge, decode};

/// The entries from one place in the log up to another, and the numbers of the blocks of the first and of the last of them.
#[derive(Clone, Copy)]
pub(crate) struct Run {
    pub first: usize,
    pub last: usize,
    pub from: u64,
    pub upto: u64,
}

impl Run {
    // How many bytes of the file it takes, from its first word to its last: the frames between its blocks among them.
    pub(crate) fn length(self) -> usize
        requires order { self.first ≤ self.last }
        requires few_blocks { self.last < 2 ^ 32 }
        requires entries { self.from ≤ self.upto }
        requires few_entries { self.upto < 2 ^ 32 }
        ensures { result ≡ run_length self }
    {
        (word_at(self.last, self.upto) - word_at(self.first, self.from)) as usize
    }
}

// How many bytes of the file a range takes.
pub(crate) fn range_length(places: &[BlockPlace], a: u64, b: u64) -> usize
    requires blocks { AreBlocks places.now }
    requires order { a ≤ b }
    requires within { b ≤ entries_at places.now }
    ensures { 8 * (b - a) ≤ result }
{
    if a == b {
        return 0;
    }
    let whole = Run {
        first: block_of(places, a),
        last: block_of(places, b - 1),
        from: a,
        upto: b,
    };
    whole.length()
}

// The run from an entry on that takes no more bytes than `most`: as many blocks as fit, up to the one that has the last entry before `b`.
pub(crate) fn run_from(places: &[BlockPlace], number: usize, at: u64, b: u64, most: usize) -> Run
    requires blocks { AreBlocks places.now }
    requires begins { HasEntry places.now number at }
    requires order { at < b }
    requires within { b ≤ entries_at places.now }
    requires fits { 8 * min (b - at) COUNT_LIMIT ≤ most }
    ensures { RunsFrom places.now at b most result }
{
    let mut run = Run {
        first: number,
        last: number,
        from: at,
        upto: b.min(entries_up_to(places, number)),
    };
    while run.upto < b {
        let longer = with_next(places, run, b);
        if longer.length() > most {
            return run;
        }
        run = longer;
    }
    run
}

// The run that goes on by the next block.
fn with_next(places: &[BlockPlace], run: Run, b: u64) -> Run
    requires blocks { AreBlocks places.now }
    requires run { IsRun places.now run }
    requires block { run.upto ≡ entries_at (take (run.last + 1) places.now) }
    requires more { run.upto < b }
    requires within { b ≤ entries_at places.now }
    ensures { GoesOn places.now b run result }
{
    let last = run.last + 1;
    Run {
        last,
        upto: b.min(entries_up_to(places, last)),
        ..run
    }
}

// Adds the entries of a run, for which there is room, from its bytes.
pub(crate) fn add_run(places: &[BlockPlace], run: Run, bytes: &[u8], out: &mut Vec<Edge>)
    requires blocks { AreBlocks places.now }
    requires run { IsRun places.now run }
    requires bytes { length bytes.now ≡ run_length run }
    requires room { vec_len out.old + (run.upto - run.from) ≤ vec_capacity out.old }
    ensures added { AddsCount (run.upto - run.from) out.old.items out.new.items }
    ensures shown { (file : List ℕ) (log : List Edge) → HasWords places.now file log →
        Shows file (place_of_word run.first run.from) bytes.now → AddsRange log run.from run.upto out.old.items out.new.items }
    ensures room { vec_capacity out.old ≤ vec_capacity out.new }
{
    let start = word_at(run.first, run.from);
    let mut at = run.from;
    let mut number = run.first;
    while at < run.upto {
        let next = run.upto.min(entries_up_to(places, number));
        let skipped = (word_at(number, at) - start) as usize;
        let count = (next - at) as usize;
        add_entries(&bytes[skipped..skipped + WORD_LENGTH * count], count, out);
        at = next;
        number += 1;
    }
}

// Adds the entries of so many words, for which there is room.
fn add_entries(words: &[u8], count: usize, out: &mut Vec<Edge>)
    requires words { length words.now ≡ 8 * count }
    requires room { vec_len out.old + count ≤ vec_capacity out.old }
    ensures added { out.new.items ≡ out.old.items ++ entries_in count words.now }
    ensures room { vec_capacity out.old ≤ vec_capacity out.new }
{
    let mut rest = words;
    for _ in 0..count {
        let (word, after) = rest.split_at(WORD_LENGTH);
        out.push(decode(LittleEndian::read_u64(word))).unwrap();
        rest = after;
    }
}
