// The first words of a line.
ghost use Rattle.std.specs.Prelude.{◌≡◌, ◌≤◌, take};
ghost use Rattle.go_text.specs.Word.{words};
ghost use Rattle.go_text.specs.Texts.{texts, is_skipped};

use crate::next_word;

// No line is judged by more words than these: a command, three arguments, and one too many.
const FIRST: usize = 5;

/// The first words of a line, five at most: more than a right line has.
#[derive(Clone, Copy)]
pub struct FirstWords<'a> {
    list: [&'a [u8]; FIRST],
    len: usize,
    ghost within: { len ≤ 5 },
}

impl<'a> FirstWords<'a> {
    /// The first words of a line.
    pub fn of(line: &'a [u8]) -> FirstWords<'a>
        ensures { texts (take result.len result.list) ≡ take 5 (words line.now) }
    {
        let mut list = [b"".as_slice(); FIRST];
        let mut from = 0;
        for len in 0..FIRST {
            let Some(word) = next_word(line, from) else {
                return FirstWords { list, len };
            };
            list[len] = &line[word.start..word.stop];
            from = word.stop;
        }
        FirstWords { list, len: FIRST }
    }

    /// The words as a slice.
    pub fn as_slice(&self) -> &[&'a [u8]]
        ensures { texts result.now ≡ texts (take self.now.len self.now.list) }
    {
        &self.list[..self.len]
    }
}

/// Whether a line with these words is skipped: it has none, or is a comment.
pub fn is_skipped(words: &[&[u8]]) -> bool
    ensures { result ≡ is_skipped (texts words.now) }
{
    match words {
        [] => true,
        [[b'#', ..], ..] => true,
        _ => false,
    }
}
