//! The table of classes: how many words each chunk of a chain has room for.
ghost use Rattle.std.specs.Prelude.{◌≡◌, ◌<◌, ◌≤◌, ◌+◌, length, slice_set, IfOk};
ghost use Rattle.go_chunk.specs.Pieces.{words_of, class_at, start_of};

use std::alloc::{AllocError, Global};

/// The class of the chunk that lies in the chain itself.
pub(crate) const FIRST: usize = 4;

/// The class of the chunk behind it.
pub(crate) const SECOND: usize = 16;

/// The class of the first piece, which is the chunk after that.
pub(crate) const THIRD: usize = 64;

/// The class of each further piece.
pub(crate) const LAST: usize = 256;

/// The classes of the pieces in front of those of the last class.
pub(crate) const GROWING: [usize; 1] = [THIRD];

/// A chunk of one of the classes behind the second, on the heap.
#[derive(Drop)]
pub(crate) enum Piece {
    Third(Box<[u64; THIRD]>),
    Last(Box<[u64; LAST]>),
}

/// The table: calls a macro of cases with a row for each class.
macro_rules! by_class {
    ($cases:ident $given:tt) => {
        $cases!($given [Third THIRD] [Last LAST])
    };
}

/// What an expression gives at the words in a piece, whichever its class.
macro_rules! at_words {
    (($piece:expr, $words:ident, $answer:expr) $([$class:ident $size:ident])+) => {
        match $piece {
            $(Piece::$class($words) => $answer,)+
        }
    };
}

/// A piece of the class at an index.
macro_rules! piece_at {
    (($alloc:expr, $index:expr) [$class:ident $size:ident]) => {
        Piece::$class(Box::new($alloc, [0; $size])?)
    };
    (($alloc:expr, $index:expr) [$class:ident $size:ident] $($others:tt)+) => {
        if $index == 0 {
            Piece::$class(Box::new($alloc, [0; $size])?)
        } else {
            piece_at!(($alloc, $index - 1) $($others)+)
        }
    };
}

/// The piece and the place in it of the word `$i`.
macro_rules! place_at {
    (($i:expr, $piece:expr) [$class:ident $size:ident]) => {
        Place { piece: $piece + $i / $size, offset: $i % $size }
    };
    (($i:expr, $piece:expr) [$class:ident $size:ident] $($others:tt)+) => {
        if $i < $size {
            Place { piece: $piece, offset: $i }
        } else {
            let rest = $i - $size;
            place_at!((rest, $piece + 1) $($others)+)
        }
    };
}

/// Where a word lies in the pieces.
#[derive(Clone, Copy)]
pub(crate) struct Place {
    pub(crate) piece: usize,
    pub(crate) offset: usize,
}

impl Place {
    /// The place of the word `i`, counted from the first piece on.
    pub(crate) fn of(i: usize) -> Place
        ensures found { start_of GROWING result.piece + result.offset ≡ i }
        ensures within { result.offset < class_at GROWING result.piece }
    {
        by_class!(place_at(i, 0usize))
    }
}

impl Piece {
    /// A piece of the class that the piece at this index has.
    pub(crate) fn at(alloc: Global, index: usize) -> Result<Piece, AllocError>
        ensures class { IfOk result (λ piece. length (words_of piece) ≡ class_at GROWING index) }
    {
        Ok(by_class!(piece_at(alloc, index)))
    }

    /// The words in all of its places.
    pub(crate) fn words(&self) -> &[u64]
        ensures { result.now ≡ words_of self.now }
    {
        by_class!(at_words(self, words, &words[..]))
    }

    /// Puts a word into a place.
    pub(crate) fn put(&mut self, place: usize, word: u64)
        requires { place < length (words_of self.old) }
        ensures { words_of self.new ≡ slice_set (words_of self.old) place word }
    {
        by_class!(at_words(self, words, words[..][place] = word))
    }
}
