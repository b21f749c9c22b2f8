// A binary file of edges, word by word.
ghost use Rattle.std.specs.Prelude.{◌≡◌, [], All, IfOk, OnOk};
ghost use Rattle.go_word.specs.Log.{IsWithin};
ghost use Rattle.go_loader.specs.Reading.{AnswersItems};
ghost use Rattle.go_loader.specs.BinaryFile.{pieces, piece_reads, word_reads};

use crate::fault::LoadFault;
use byteorder::{ByteOrder, LittleEndian};
use go_text::FaultKind;
use go_word::{Edge, decode, is_rotated};

// The bytes of a word.
const WORD_LENGTH: usize = 8;

// Appends the entries of the words, up to the first with a fault.
pub(crate) fn read_words(bytes: &[u8], v: u32, out: &mut Vec<Edge>) -> Result<(), LoadFault>
    requires { out.old.items ≡ [] }
    ensures exact { AnswersItems (piece_reads v) (pieces bytes.now) out.new.items result }
    ensures within { OnOk result (All (IsWithin v) out.new.items) }
{
    let mut rest = bytes;
    let mut line = 0;
    while !rest.is_empty() {
        line += 1;
        let Some((piece, more)) = rest.split_at_checked(WORD_LENGTH) else {
            return Err(LoadFault::Line {
                line,
                kind: FaultKind::Short,
            });
        };
        match read_word(LittleEndian::read_u64(piece), v) {
            Ok(edge) => out.push(edge)?,
            Err(kind) => return Err(LoadFault::Line { line, kind }),
        }
        rest = more;
    }
    Ok(())
}

// The entry that a word holds: its rotation bit is clear, and its vertices are below `v`.
fn read_word(word: u64, v: u32) -> Result<Edge, FaultKind>
    ensures exact { result ≡ word_reads v word }
    ensures within { IfOk result (IsWithin v) }
{
    if is_rotated(word) {
        return Err(FaultKind::Number);
    }
    let edge = decode(word);
    if edge.src < v && edge.dst < v {
        Ok(edge)
    } else {
        Err(FaultKind::Vertex)
    }
}
