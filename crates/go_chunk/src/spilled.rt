//! What spills over a chain's first chunk: the others, on the heap.
ghost use Rattle.std.specs.Prelude.{◌≡◌, ◌<◌, ◌≤◌, ◌+◌, ◌++◌, length, slice_index, slice_set, take, IfOk, OnOk, OnErr};
ghost use Rattle.go_chunk.specs.WordList.{StandFrom};

use crate::classes::{LAST, Piece, SECOND};
use crate::pieces::{copy_words, put_word, word_at, words_from};
use std::alloc::{AllocError, Global};
use std::marker::Model;

/// The second chunk, and the later ones in pieces: one list of places for words.
#[derive(Drop)]
pub(crate) struct Spilled {
    second: [u64; SECOND],
    later: Vec<Piece>,
}

impl Model for Spilled {
    ghost use Rattle.std.specs.Prelude.{◌≡◌, ◌++◌, List, ℕ, length};
    ghost use Rattle.go_chunk.specs.Pieces.{words_of_all, IsSpilled};

    ghost Value = { List ℕ };

    ghost view = { λ spilled. spilled.second ++ words_of_all spilled.later.items };

    ghost invariant = { λ spilled. IsSpilled spilled.second spilled.later.items };
}

impl Spilled {
    /// The second chunk and no piece; it asks for no memory.
    pub(crate) fn new(alloc: Global) -> Spilled
        ensures { length result ≡ SECOND }
    {
        Spilled {
            second: [0; SECOND],
            later: Vec::new(alloc),
        }
    }

    /// The word at place `i`.
    pub(crate) fn get(&self, i: usize) -> u64
        requires { i < length self.now }
        ensures { result ≡ slice_index self.now i }
    {
        if i < SECOND {
            self.second[i]
        } else {
            word_at(&self.later, i - SECOND)
        }
    }

    /// The words of the chunk that has the word `i`, from that one on.
    pub(crate) fn words_from(&self, i: usize) -> &[u64]
        requires { i < length self.now }
        ensures { StandFrom self.now i result.now }
    {
        if i < SECOND {
            &self.second[i..]
        } else {
            words_from(&self.later, i - SECOND)
        }
    }

    /// Puts a word into the place `i`.
    pub(crate) fn put(&mut self, i: usize, word: u64)
        requires { i < length self.old }
        ensures { self.new ≡ slice_set self.old i word }
    {
        if i < SECOND {
            self.second[i] = word;
        } else {
            put_word(&mut self.later, i - SECOND, word);
        }
    }

    /// Adds the next piece, where so many words more are wanted, and tells how many places it has.
    pub(crate) fn grow(&mut self, missing: usize) -> Result<usize, AllocError>
        ensures more { IfOk result (λ size. length self.new ≡ length self.old + size) }
        ensures some { IfOk result (λ size. 0 < size) }
        ensures most { IfOk result (λ size. size ≤ LAST) }
        ensures kept { take (length self.old) self.new ≡ self.old }
        ensures err { OnErr result (self.new ≡ self.old) }
    {
        self.reserve_table(missing / LAST + 1)?;
        let alloc = *self.later.allocator();
        let piece = Piece::at(alloc, self.later.len())?;
        let size = piece.words().len();
        self.later.push(piece)?;
        Ok(size)
    }

    // Makes room in the table for so many pieces, so that more than any memory holds is refused at once.
    fn reserve_table(&mut self, pieces: usize) -> Result<(), AllocError>
        ensures { self.new ≡ self.old }
    {
        if self.later.is_empty() {
            // Few chains have a second piece.
            self.later.reserve_exact(pieces)
        } else {
            self.later.reserve(pieces)
        }
    }

    /// Appends the first `k` words to `out`, or fewer where memory is refused.
    pub(crate) fn copy_front(&self, k: usize, out: &mut Vec<u64>) -> Result<(), AllocError>
        requires { k ≤ length self.now }
        ensures ok { OnOk result (out.new.items ≡ out.old.items ++ take k self.now) }
        ensures kept { take (length out.old.items) out.new.items ≡ out.old.items }
    {
        let in_second = k.min(SECOND);
        out.extend_from_slice(&self.second[..in_second])?;
        copy_words(&self.later, k - in_second, out)
    }
}
