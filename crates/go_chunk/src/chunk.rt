//! A chunk: room for a fixed number of words, filled from the front.
ghost use Rattle.std.specs.Prelude.{◌≡◌, ◌↔◌, IsTrue, ◌<◌, ◌≤◌, ◌∷◌, ◌++◌, [], length, slice_index};

use std::marker::Model;

/// Up to `C` words in place, in the order in which they were pushed.
#[derive(Drop)]
pub struct Chunk<const C: usize> {
    // In front of the words, so that it lies beside the first of them.
    used: usize,
    words: [u64; C],
}

impl<const C: usize> Model for Chunk<C> {
    ghost use Rattle.std.specs.Prelude.{◌≤◌, List, ℕ, take};

    ghost Value = { List ℕ };

    ghost view = { λ chunk. take chunk.used chunk.words };

    ghost invariant = { λ chunk. chunk.used ≤ C };
}

impl<const C: usize> Chunk<C> {
    /// A chunk without words.
    pub fn new() -> Chunk<C>
        ensures { result ≡ [] }
    {
        Chunk {
            used: 0,
            words: [0; C],
        }
    }

    /// How many words the chunk holds, at most `C`.
    pub fn len(&self) -> usize
        ensures count { result ≡ length self.now }
        ensures within { result ≤ C }
    {
        self.used
    }

    /// Whether the chunk holds no word.
    pub fn is_empty(&self) -> bool
        ensures { IsTrue result ↔ (length self.now ≡ 0) }
    {
        self.used == 0
    }

    /// The word at place `i`, counted from 0.
    pub fn get(&self, i: usize) -> u64
        requires { i < length self.now }
        ensures { result ≡ slice_index self.now i }
    {
        self.words()[i]
    }

    /// All words, in order.
    pub fn words(&self) -> &[u64]
        ensures { result.now ≡ self.now }
    {
        &self.words[..self.used]
    }

    /// Puts a word behind the others.
    pub fn push(&mut self, word: u64)
        requires { length self.old < C }
        ensures { self.new ≡ self.old ++ word ∷ [] }
    {
        self.words[self.used] = word;
        self.used += 1;
    }
}

#[cfg(test)]
mod tests {
    use super::*;

    #[test]
    fn a_chunk_is_filled_from_the_front(rt: HostRuntime) {
        let mut chunk = Chunk::<4>::new();
        assert!(rt; chunk.is_empty());
        for word in [7, 8, 9, 10] {
            assert!(rt; chunk.len() < 4);
            chunk.push(word);
        }
        assert_eq!(rt; chunk.words(), [7, 8, 9, 10].as_slice());
        assert_eq!(rt; chunk.len(), 4);
        assert_eq!(rt; chunk.get(3), 10);
    }
}
