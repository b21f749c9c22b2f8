// A file of edges in either form.
ghost use Rattle.std.specs.Prelude.{All, OnOk};
ghost use Rattle.go_word.specs.Log.{IsWithin};
ghost use Rattle.go_loader.specs.EdgeFile.{Answers};

use crate::binary::read_words;
use crate::fault::LoadFault;
use crate::text::read_text;
use go_word::Edge;

// The letters in front of the words of a binary file.
const MAGIC: [u8; 8] = *b"GRONEBIN";

/// Gives the entries of a file of edges over the vertices below `v` into `out`, which is cleared first; or the first line with a fault.
///
/// A file that begins with the letters `GRONEBIN` has a word of eight bytes for each entry behind them, the lowest byte first, and each
/// counts as a line. Any other is a text: in each line two vertices, behind a `-` where the edge is deleted; a line without a word, or
/// whose first word begins with `#`, is skipped. One pass over the bytes, and no memory but for the entries. After a fault or want of
/// memory nothing is claimed of `out`.
pub fn read_edges(bytes: &[u8], v: u32, out: &mut Vec<Edge>) -> Result<(), LoadFault>
    ensures exact { Answers v bytes.now out.new.items result }
    ensures within { OnOk result (All (IsWithin v) out.new.items) }
{
    out.clear();
    match bytes.strip_prefix(&MAGIC) {
        Some(words) => read_words(words, v, out),
        None => read_text(bytes, v, out),
    }
}
