// Reading a file: its header, and then block after block up to the first closed gate.
ghost use Rattle.std.specs.Prelude.{◌≡◌, ◌<◌, ◌≤◌, ◌+◌, ◌*◌, ◌%◌, ◌^◌, [], List, ℕ, length, IfOk, IfSome, MatchResult};
ghost use Rattle.go_word.specs.declared.edge.Edge.{Edge};
ghost use Rattle.go_blocks.specs.declared.fault.Bad.{Bad};
ghost use Rattle.go_blocks.specs.File.{File};
ghost use Rattle.go_blocks.specs.Faults.{IsBlockFault, IsFirstFault, count_at};
ghost use Rattle.go_blocks.specs.Reading.{Shows, IfBad, ReadsWords, TakesBlock, IsUpTo, ReadsFile, IsReadAs, IsRefusedWith};

use crate::fault::{Bad, BadKind, FileFault};
use crate::fields::read_header;
use crate::layout::{
    CLOSED, COUNT_AT, COUNT_LIMIT, FIRST_GATE, GATE_LENGTH, WORD_LENGTH, WORDS_AT,
};
use crate::log_file::{BlockPlace, LogFile};
use crate::numbers::{number_of_eight, number_of_four};
use go_word::{Edge, read_plain};
use std::alloc::Global;

/// Reads the bytes of a file.
///
/// They are gone through once, and the counts of the blocks before that. Beside them it takes memory for the entries
/// and the places of the blocks that are there, however long the bytes are.
pub fn read_file(alloc: Global, bytes: &[u8]) -> Result<LogFile, FileFault>
    // What is read is what the bytes stand for; a fault is the first one.
    ensures read { ReadsFile bytes.now result }
    ensures file { IfOk result (λ file. File file.vertices file.edges bytes.now) }

    // Each file is read, and each fault is told, unless memory runs out.
    ensures each_file { (v : ℕ) (log : List Edge) → File v log bytes.now → IsReadAs v log result }
    ensures each_fault { (bad : Bad) → IsFirstFault bytes.now bad → IsRefusedWith bad result }

    ensures fits { IfOk result (λ file. 8 * length file.edges ≤ length bytes.now) }
{
    let (vertices, rest) = read_header(bytes)?;
    read_blocks(alloc, vertices, bytes, rest)
}

// Reads the blocks behind the header, from the first gate on.
fn read_blocks(
    alloc: Global,
    vertices: u32,
    bytes: &[u8],
    behind: &[u8],
) -> Result<LogFile, FileFault>
    requires { IsUpTo bytes.now behind.now vertices [] [] FIRST_GATE }
    ensures { ReadsFile bytes.now result }
{
    let extent = extent_of(behind);
    let mut edges = Vec::with_capacity(alloc, extent.entries)?;
    let mut places = Vec::with_capacity(alloc, extent.blocks)?;
    let mut rest = behind;
    let mut gate = FIRST_GATE;
    while rest[0] != CLOSED {
        let (_, body) = rest.split_at(GATE_LENGTH);
        let (count, after) = read_block(vertices, gate, body, &mut edges)?;
        places.push(BlockPlace { gate, count })?;
        rest = after;
        gate = (bytes.len() - rest.len()) as u64;
    }
    Ok(LogFile::new(vertices, edges, places, gate))
}

// How many blocks there are, and how many entries they have.
#[derive(Clone, Copy)]
struct Extent {
    blocks: usize,
    entries: usize,
}

// How much the blocks from a gate on come to, as far as their counts can be read.
fn extent_of(bytes: &[u8]) -> Extent
    ensures { 8 * result.entries + result.blocks ≤ length bytes.now }
{
    let mut extent = Extent {
        blocks: 0,
        entries: 0,
    };
    let mut rest = bytes;
    while let Some((count, after)) = pass_block(rest) {
        extent.blocks += 1;
        extent.entries += count;
        rest = after;
    }
    extent
}

// The count of the block behind an open gate, and the bytes from the next gate on, if the count can be read.
fn pass_block(bytes: &[u8]) -> Option<(usize, &[u8])>
    ensures { IfSome result (λ passed. 8 * passed.0 + 1 + length passed.1.now ≤ length bytes.now) }
{
    let (gate, body) = bytes.split_first()?;
    if *gate == CLOSED {
        return None;
    }
    match read_count(0, body) {
        Ok((count, words)) => {
            let (_, after) = words.split_at(WORD_LENGTH * count as usize);
            Some((count as usize, after))
        }
        Err(_) => None,
    }
}

// Reads the block behind an open gate, and gives its count and the bytes from the next gate on.
fn read_block<'a>(
    vertices: u32,
    gate: u64,
    rest: &'a [u8],
    edges: &mut Vec<Edge>,
) -> Result<(u32, &'a [u8]), FileFault>
    requires { gate + 1 + length rest.now < 2 ^ 64 }
    ensures { MatchResult result
        (λ found. TakesBlock vertices rest.now edges.old.items edges.new.items found.0 found.1.now)
        (IfBad (IsBlockFault vertices gate rest.now)) }
{
    let (count, behind) = read_count(gate, rest)?;
    let (words, after) = behind.split_at(WORD_LENGTH * count as usize);
    read_words(vertices, gate + WORDS_AT, words, edges)?;
    Ok((count, after))
}

// Reads the count of the block, and gives the bytes behind it, which have its words and a gate.
#[tactic(auto, unfolding(crate::specs::Faults::count_at))]
fn read_count(gate: u64, rest: &[u8]) -> Result<(u32, &[u8]), Bad>
    requires { gate + 1 + length rest.now < 2 ^ 64 }
    ensures { Shows (λ found. (found.0, found.1.now)) result (count_at gate rest.now) }
{
    let at = gate + COUNT_AT;
    let Some((count, behind)) = rest.split_first_chunk::<4>() else {
        return Err(Bad {
            at,
            kind: BadKind::Short,
        });
    };
    let count = number_of_four(count);
    if count == 0 || count > COUNT_LIMIT {
        return Err(Bad {
            at,
            kind: BadKind::Count,
        });
    }
    if behind.len() <= WORD_LENGTH * count as usize {
        return Err(Bad {
            at,
            kind: BadKind::Short,
        });
    }
    Ok((count, behind))
}

// Reads words that begin at a place, and appends their entries.
fn read_words(vertices: u32, at: u64, words: &[u8], edges: &mut Vec<Edge>) -> Result<(), FileFault>
    requires whole { length words.now % 8 ≡ 0 }
    requires place { at + length words.now < 2 ^ 64 }
    ensures { ReadsWords vertices at words.now edges.old.items edges.new.items result }
{
    let mut rest = words;
    while let Some((word, after)) = rest.split_first_chunk::<8>() {
        let Some(edge) = read_plain(number_of_eight(word), vertices) else {
            let at = at + (words.len() - rest.len()) as u64;
            return Err(FileFault::Bad {
                bad: Bad {
                    at,
                    kind: BadKind::Word,
                },
            });
        };
        edges.push(edge)?;
        rest = after;
    }
    Ok(())
}
