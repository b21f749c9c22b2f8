// A cursor over the words of a ring, which goes along a lap without a division.
use crate::claim::NO_EDGE;
use go_core::Part;
use go_rule::Ring;
use go_word::{encode, is_rotated};

/// Where the word of a position lies, how far its lap goes on, and how the words of the lap are rotated.
#[derive(Clone, Copy)]
pub(crate) struct Cursor {
    /// The index of the word.
    pub(crate) index: usize,
    /// How many positions of the lap are left, this one among them.
    pub(crate) left: u64,
    /// The rotation of the lap's words, and nothing else.
    pub(crate) rotation: u64,
}

impl Cursor {
    ghost use Rattle.std.specs.Prelude.{◌≡◌, ℕ, ◌+◌, ◌^◌, ◌<◌};
    ghost use Rattle.go_word.specs.Word.{is_matched};
    ghost use Rattle.go_core.specs.Frame.{Frame};
    ghost use Rattle.go_rule.specs.Views.{frame_of};
    ghost use Rattle.go_ring.specs.Cursors.{IsCursorAt};

    // The cursor at a position.
    pub(crate) fn new<T: Part>(ring: &Ring<T>, at: u64) -> Cursor
        ensures { IsCursorAt (frame_of ring.now.table.shared.key) at result }
    {
        Cursor {
            index: ring.place(at),
            left: ring.slots - at % ring.slots,
            rotation: encode(NO_EDGE, at, ring.slots),
        }
    }

    // The cursor at the position after the one where this stands.
    pub(crate) fn next<T: Part>(self, ring: &Ring<T>, at: u64) -> Cursor
        requires on { IsCursorAt (frame_of ring.now.table.shared.key) at self }
        requires small { at + 1 < 2 ^ 64 }
        ensures { IsCursorAt (frame_of ring.now.table.shared.key) (at + 1) result }
    {
        if self.left > 1 {
            Cursor {
                index: self.index + 1,
                left: self.left - 1,
                rotation: self.rotation,
            }
        } else {
            Cursor::new(ring, at + 1)
        }
    }

    // Whether a word is of the lap where this stands.
    pub(crate) fn matches(self, word: u64) -> bool
        ensures { (f : Frame) (p : ℕ) → IsCursorAt f p self → result ≡ is_matched f.slots p word }
    {
        is_rotated(word) == is_rotated(self.rotation)
    }
}
