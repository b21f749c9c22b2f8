// The bytes of a block behind its gate.
ghost use Rattle.std.specs.Prelude.{◌≡◌, ◌<◌, ◌≤◌, ◌+◌, ◌*◌, ◌++◌, [], ◌∷◌, List, ℕ, All, length, ◌^◌, OnOk, OnErr, vec_len, vec_capacity};
ghost use Rattle.std.specs.List.{flat_map};
ghost use Rattle.go_word.specs.declared.edge.Edge.{Edge};
ghost use Rattle.go_word.specs.Log.{IsWithin};
ghost use Rattle.go_word.specs.Word.{IsStorable};
ghost use Rattle.go_blocks.specs.File.{IsFront, IsOpen, IsCount, body_of, word_bytes};

use crate::layout::{BLOCK_FRAME, CLOSED, WORD_LENGTH};
use crate::numbers::{eight_bytes, four_bytes};
use go_word::{Edge, plain};
use std::alloc::AllocError;

/// Appends a block without its gate: the count, the words, and the closed gate of the next block.
///
/// The room is reserved once. After want of memory nothing was appended.
pub fn write_block(edges: &[Edge], out: &mut Vec<u8>) -> Result<(), AllocError>
    requires count { IsCount (length edges.now) }
    requires storable { All IsStorable edges.now }

    ensures exact { OnOk result (out.new.items ≡ out.old.items ++ (body_of edges.now ++ CLOSED ∷ [])) }
    ensures memory { OnErr result (out.new.items ≡ out.old.items) }

    // Behind a front and an open gate they make the front of the longer log.
    ensures next { (v : ℕ) (log : List Edge) (front : List ℕ) (gate : ℕ) → IsFront v log front →
        All (IsWithin v) edges.now → IsOpen gate →
        IsFront v (log ++ edges.now) (front ++ gate ∷ body_of edges.now) }
{
    out.reserve(BLOCK_FRAME + WORD_LENGTH * edges.len())?;
    // None of these fails: there is room.
    out.extend_from_slice(&four_bytes(edges.len() as u32))
        .unwrap();
    write_words(edges, out);
    out.push(CLOSED).unwrap();
    Ok(())
}

// Appends the words of the entries, for which there is room.
fn write_words(edges: &[Edge], out: &mut Vec<u8>)
    requires storable { All IsStorable edges.now }
    requires room { vec_len out.old + 8 * length edges.now < vec_capacity out.old }

    ensures exact { out.new.items ≡ out.old.items ++ flat_map word_bytes edges.now }
    ensures room { vec_len out.new < vec_capacity out.new }
{
    for edge in edges {
        out.extend_from_slice(&eight_bytes(plain(*edge))).unwrap();
    }
}
