//! A chain of chunks: a list of words that grows without moving one.
ghost use Rattle.std.specs.Prelude.{◌≡◌, ◌↔◌, ◌<◌, ◌≤◌, ◌+◌, ◌∷◌, ◌++◌, [], length, slice_index, take, max, IsTrue, IsOk, OnOk, OnErr};
ghost use Rattle.go_chunk.specs.declared.classes.TheConstants.{LAST};
ghost use Rattle.std.specs.Option.{option_map_or};
ghost use Rattle.go_chunk.specs.WordList.{StandFrom};

use crate::classes::{FIRST, LAST, SECOND};
use crate::spilled::Spilled;
use std::alloc::{AllocError, Global};
use std::marker::Model;

/// A list of words with room in reserve.
#[derive(Drop)]
pub struct Chain {
    // The words fill the places of the chunks from the front, and are counted here alone: with a count in each chunk
    // a push would wait for one more line of memory.
    first: [u64; FIRST],
    spilled: Option<Box<Spilled>>,
    len: usize,
    spare: usize,
    alloc: Global,
}

impl Model for Chain {
    ghost use Rattle.go_chunk.specs.WordList.{WordList};

    ghost Value = { WordList };

    ghost use Rattle.std.specs.Prelude.{◌++◌, [], take};
    ghost use Rattle.std.specs.Option.{option_map_or};
    ghost use Rattle.go_chunk.specs.Pieces.{IsKept};

    ghost view = { λ chain. record {
      words = take chain.len (chain.first ++ option_map_or (λ spilled. spilled.value) chain.spilled []);
      spare = chain.spare;
    } };

    ghost invariant = { λ chain. IsKept chain.first (option_map_or (λ spilled. spilled.value) chain.spilled []) chain.len chain.spare };
}

impl Chain {
    /// A chain without words; it asks for no memory, and has room for 255 at most.
    pub fn new(alloc: Global) -> Chain
        ensures words { result.words ≡ [] }
        ensures room { result.spare ≤ 255 }
    {
        Chain {
            first: [0; FIRST],
            spilled: None,
            len: 0,
            spare: FIRST,
            alloc,
        }
    }

    /// How many words the chain holds.
    pub fn len(&self) -> usize
        ensures { result ≡ length self.now.words }
    {
        self.len
    }

    /// Whether the chain holds no word.
    pub fn is_empty(&self) -> bool
        ensures { IsTrue result ↔ (length self.now.words ≡ 0) }
    {
        self.len == 0
    }

    /// How many pushes the chain takes before it has to reserve again.
    pub fn spare(&self) -> usize
        ensures { result ≡ self.now.spare }
    {
        self.spare
    }

    /// The word at place `i`, counted from 0.
    pub fn get(&self, i: usize) -> u64
        requires { i < length self.now.words }
        ensures { result ≡ slice_index self.now.words i }
    {
        if i < FIRST {
            return self.first[i];
        }
        match &self.spilled {
            Some(spilled) => spilled.get(i - FIRST),
            None => unreachable!(),
        }
    }

    /// The words between two places, from the first on as far as they lie together.
    pub fn slice(&self, from: usize, to: usize) -> &[u64]
        requires order { from < to }
        requires inside { to ≤ length self.now.words }
        ensures within { from + length result.now ≤ to }
        ensures stand { StandFrom self.now.words from result.now }
    {
        let words = words_from(&self.first, &self.spilled, from);
        &words[..words.len().min(to - from)]
    }

    /// Makes room for `k` more words, and for at most 255 beside them. Where memory is refused, the room that was made
    /// before stays.
    pub fn reserve(&mut self, k: usize) -> Result<(), AllocError>
        ensures room { OnOk result (k ≤ self.new.spare) }
        ensures no_more { self.new.spare ≤ max self.old.spare (k + 255) }
        ensures words { self.new.words ≡ self.old.words }
        ensures never_less { self.old.spare ≤ self.new.spare }
        ensures enough { k ≤ self.old.spare → IsOk result }
    {
        while self.spare < k {
            self.grow(k - self.spare)?;
        }
        Ok(())
    }

    /// Adds the next chunk, where so many words more are wanted.
    fn grow(&mut self, missing: usize) -> Result<(), AllocError>
        ensures more { OnOk result (self.old.spare < self.new.spare) }
        ensures one_chunk { self.new.spare ≤ self.old.spare + LAST }
        ensures words { self.new.words ≡ self.old.words }
        ensures err { OnErr result (self.new ≡ self.old) }
    {
        // No number counts more places than that, and no memory has them.
        (self.len + self.spare).checked_add(LAST).ok_or(AllocError)?;
        let more = match &mut self.spilled {
            Some(spilled) => spilled.grow(missing)?,
            None => {
                self.spilled = Some(Box::new(self.alloc, Spilled::new(self.alloc))?);
                SECOND
            }
        };
        self.spare += more;
        Ok(())
    }

    /// Puts a word behind the others.
    pub fn push(&mut self, word: u64)
        requires { 1 ≤ self.old.spare }
        ensures added { self.new.words ≡ self.old.words ++ word ∷ [] }
        ensures falls { self.new.spare + 1 ≡ self.old.spare }
    {
        let len = self.len;
        self.len += 1;
        self.spare -= 1;
        if len < FIRST {
            self.first[len] = word;
        } else if let Some(spilled) = &mut self.spilled {
            spilled.put(len - FIRST, word);
        }
    }

    /// Puts words behind the others, in their order.
    pub fn extend_from_slice(&mut self, words: &[u64])
        requires { length words.now ≤ self.old.spare }
        ensures added { self.new.words ≡ self.old.words ++ words.now }
        ensures falls { self.new.spare + length words.now ≡ self.old.spare }
    {
        for word in words {
            self.push(*word);
        }
    }

    /// Gives up the words behind the first `len`, and keeps their room.
    pub fn truncate(&mut self, len: usize)
        ensures words { self.new.words ≡ take len self.old.words }
        ensures never_less { self.old.spare ≤ self.new.spare }
        ensures rises { self.new.spare + length self.new.words ≡ self.old.spare + length self.old.words }
    {
        if len < self.len {
            self.spare += self.len - len;
            self.len = len;
        }
    }

    /// Appends the first `k` words to `out`, which is as before where memory is refused.
    pub fn copy_front(&self, k: usize, out: &mut Vec<u64>) -> Result<(), AllocError>
        requires { k ≤ length self.now.words }
        ensures ok { OnOk result (out.new.items ≡ out.old.items ++ take k self.now.words) }
        ensures err { OnErr result (out.new.items ≡ out.old.items) }
    {
        let before = out.len();
        let copied = self.copy_parts(k, out);
        if copied.is_err() {
            out.truncate(before);
        }
        copied
    }

    /// Appends the first `k` words to `out`, or fewer where memory is refused.
    fn copy_parts(&self, k: usize, out: &mut Vec<u64>) -> Result<(), AllocError>
        requires { k ≤ length self.now.words }
        ensures ok { OnOk result (out.new.items ≡ out.old.items ++ take k self.now.words) }
        ensures kept { take (length out.old.items) out.new.items ≡ out.old.items }
    {
        let in_first = k.min(FIRST);
        out.extend_from_slice(&self.first[..in_first])?;
        match &self.spilled {
            Some(spilled) => spilled.copy_front(k - in_first, out),
            None => Ok(()),
        }
    }
}

/// The words in the places of the chunk that has the place `i`, from that one on.
fn words_from<'a>(first: &'a [u64; FIRST], spilled: &'a Option<Box<Spilled>>, i: usize) -> &'a [u64]
    requires { i < length (first.now ++ option_map_or (λ spilled. spilled.value) spilled.now []) }
    ensures { StandFrom (first.now ++ option_map_or (λ spilled. spilled.value) spilled.now []) i result.now }
{
    if i < FIRST {
        return &first[i..];
    }
    match spilled {
        Some(spilled) => spilled.words_from(i - FIRST),
        None => unreachable!(),
    }
}
