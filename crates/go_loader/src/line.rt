// A line of a text of edges.
ghost use Rattle.std.specs.Prelude.{◌≡◌, ◌∷◌, [], IfOk, IfSome};
ghost use Rattle.go_text.specs.Texts.{texts};
ghost use Rattle.go_word.specs.Log.{IsWithin};
ghost use Rattle.go_loader.specs.TextFile.{entry_of, entry_by, words_read, line_reads};

use go_text::{FaultKind, FirstWords, is_skipped, read_vertex};
use go_word::Edge;

// What a line reads as: nothing where it is skipped, else an entry.
pub(crate) fn read_line(line: &[u8], v: u32) -> Result<Option<Edge>, FaultKind>
    ensures exact { result ≡ line_reads v line.now }
    ensures within { IfOk result (λ found. IfSome found (IsWithin v)) }
{
    read_words(FirstWords::of(line).as_slice(), v)
}

fn read_words(words: &[&[u8]], v: u32) -> Result<Option<Edge>, FaultKind>
    ensures exact { result ≡ words_read v (texts words.now) }
    ensures within { IfOk result (λ found. IfSome found (IsWithin v)) }
{
    if is_skipped(words) {
        return Ok(None);
    }
    let edge = read_entry(words, v)?;
    Ok(Some(edge))
}

// The entry that words write: two vertices, behind a mark where it is a deletion.
fn read_entry(words: &[&[u8]], v: u32) -> Result<Edge, FaultKind>
    ensures exact { result ≡ entry_by v (texts words.now) }
    ensures within { IfOk result (IsWithin v) }
{
    match words {
        [[b'-'], others @ ..] => read_ends(true, others, v),
        [[b'-', src @ ..], dst] => read_pair(true, src, dst, v),
        [[b'-', ..], ..] => Err(FaultKind::Count),
        _ => read_ends(false, words, v),
    }
}

// Two vertices, a word each.
fn read_ends(del: bool, words: &[&[u8]], v: u32) -> Result<Edge, FaultKind>
    ensures exact { result ≡ entry_of v del (texts words.now) }
    ensures within { IfOk result (IsWithin v) }
{
    match words {
        [src, dst] => read_pair(del, src, dst, v),
        _ => Err(FaultKind::Count),
    }
}

fn read_pair(del: bool, src: &[u8], dst: &[u8], v: u32) -> Result<Edge, FaultKind>
    ensures exact { result ≡ entry_of v del (src.now ∷ dst.now ∷ []) }
    ensures within { IfOk result (IsWithin v) }
{
    let src = read_vertex(src, v)?;
    let dst = read_vertex(dst, v)?;
    Ok(Edge { del, src, dst })
}
