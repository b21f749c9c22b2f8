//! A chain's pieces as one list of words.
ghost use Rattle.std.specs.Prelude.{◌≡◌, ◌<◌, ◌≤◌, ◌++◌, length, slice_index, slice_set, take, OnOk};
ghost use Rattle.go_chunk.specs.Pieces.{words_of_all, HaveClasses};
ghost use Rattle.go_chunk.specs.WordList.{StandFrom};

use crate::classes::{GROWING, Piece, Place};
use std::alloc::AllocError;

/// The word `i` of the pieces.
pub(crate) fn word_at(pieces: &[Piece], i: usize) -> u64
    requires classes { HaveClasses GROWING pieces.now }
    requires inside { i < length (words_of_all pieces.now) }
    ensures { result ≡ slice_index (words_of_all pieces.now) i }
{
    let place = Place::of(i);
    pieces[place.piece].words()[place.offset]
}

/// The words of the piece that has the word `i`, from that one on.
pub(crate) fn words_from(pieces: &[Piece], i: usize) -> &[u64]
    requires classes { HaveClasses GROWING pieces.now }
    requires inside { i < length (words_of_all pieces.now) }
    ensures { StandFrom (words_of_all pieces.now) i result.now }
{
    let place = Place::of(i);
    &pieces[place.piece].words()[place.offset..]
}

/// Puts a word into the place `i` of the pieces.
pub(crate) fn put_word(pieces: &mut Vec<Piece>, i: usize, word: u64)
    requires classes { HaveClasses GROWING pieces.old.items }
    requires inside { i < length (words_of_all pieces.old.items) }
    ensures classes { HaveClasses GROWING pieces.new.items }
    ensures put { words_of_all pieces.new.items ≡ slice_set (words_of_all pieces.old.items) i word }
{
    let place = Place::of(i);
    pieces[place.piece].put(place.offset, word);
}

/// Appends the first `k` words of the pieces, one piece after another.
pub(crate) fn copy_words(pieces: &[Piece], k: usize, out: &mut Vec<u64>) -> Result<(), AllocError>
    requires { k ≤ length (words_of_all pieces.now) }
    ensures ok { OnOk result (out.new.items ≡ out.old.items ++ take k (words_of_all pieces.now)) }
    ensures kept { take (length out.old.items) out.new.items ≡ out.old.items }
{
    let mut left = k;
    for piece in pieces {
        if left == 0 {
            break;
        }
        let words = piece.words();
        let count = left.min(words.len());
        out.extend_from_slice(&words[..count])?;
        left -= count;
    }
    Ok(())
}
