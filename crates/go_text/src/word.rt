// The next word of a line behind a place.

ghost use Rattle.std.specs.Prelude.{◌≡◌, ◌≤◌, [], length, drop, MatchOption};
ghost use Rattle.std.specs.List.{position_or_len, prefix_len};
ghost use Rattle.go_text.specs.Word.{is_blank, words, IsNextWord};

/// Where a word stands in a line, counted in bytes from the line's start.
#[derive(Clone, Copy, Debug, PartialEq, Eq)]
pub struct Word {
    /// The place of the word's first byte.
    pub start: usize,
    /// The place behind the word's last byte.
    pub stop: usize,
}

/// The first word at or behind `from`, where spaces and tabs part words; `None` exactly where blanks alone follow.
///
/// One pass over the blanks and the word.
pub fn next_word(line: &[u8], from: usize) -> Option<Word>
    requires { from ≤ length line.now }
    ensures { MatchOption result (words (drop from line.now) ≡ []) (IsNextWord line.now from) }
{
    let start = from + blanks_in_front(&line[from..]);
    if start == line.len() {
        return None;
    }
    let stop = start + bytes_before_blank(&line[start..]);
    Some(Word { start, stop })
}

// How many blanks stand at the front.
fn blanks_in_front(rest: &[u8]) -> usize
    ensures count { result ≡ prefix_len is_blank rest.now }
    ensures inside { result ≤ length rest.now }
{
    rest.iter().take_while(|byte| is_blank(**byte)).count()
}

// How many bytes stand before the first blank, or all where there is none.
fn bytes_before_blank(rest: &[u8]) -> usize
    ensures count { result ≡ position_or_len is_blank rest.now }
    ensures inside { result ≤ length rest.now }
{
    rest.iter().take_while(|byte| !is_blank(**byte)).count()
}

// Whether a byte parts words: a space or a tab.
fn is_blank(byte: u8) -> bool
    ensures { result ≡ is_blank byte }
{
    byte == b' ' || byte == b'\t'
}
