// The line that begins at a place of a text.

ghost use Rattle.std.specs.Prelude.{◌≡◌, ◌<◌, ◌≤◌, ◌↔◌, [], length, drop, IsNone, MatchOption};
ghost use Rattle.std.specs.Str.Lines.{lines, strip_carriage_return};
ghost use Rattle.go_text.specs.Line.{bytes_before_feed, line_at, line_from, IsNextLine};

/// Where a line stands in a text, counted in bytes from the text's start.
#[derive(Clone, Copy, Debug, PartialEq, Eq)]
pub struct Line {
    /// The place of the line's first byte.
    pub start: usize,
    /// The place behind the line's last byte.
    pub stop: usize,
    /// The place behind the line's end, where the next line begins.
    pub next: usize,
}

/// The line that begins at `from`, without its line feed and one carriage return before that.
///
/// The last line may lack its line feed; a carriage return at its end is then part of the line. One pass over the line.
pub fn next_line(text: &[u8], from: usize) -> Option<Line>
    requires { from ≤ length text.now }
    ensures exact { result ≡ line_from text.now from }
    ensures at_end { IsNone result ↔ (from ≡ length text.now) }
    ensures splits { MatchOption result (lines (drop from text.now) ≡ []) (IsNextLine text.now from) }
{
    if from == text.len() {
        return None;
    }
    Some(line_at(text, from))
}

// The line that begins at a place before the text's end.
fn line_at(text: &[u8], from: usize) -> Line
    requires { from < length text.now }
    ensures { result ≡ line_at text.now from }
{
    let rest = &text[from..];
    let feed = bytes_before_feed(rest);
    if feed == rest.len() {
        return Line {
            start: from,
            stop: text.len(),
            next: text.len(),
        };
    }
    Line {
        start: from,
        stop: from + length_without_return(&rest[..feed]),
        next: from + feed + 1,
    }
}

// How many bytes stand before the first line feed, or all where there is none.
fn bytes_before_feed(rest: &[u8]) -> usize
    ensures { result ≡ bytes_before_feed rest.now }
{
    rest.iter().take_while(|byte| **byte != b'\n').count()
}

// The length of a line without one carriage return at its end.
fn length_without_return(line: &[u8]) -> usize
    ensures { result ≡ length (strip_carriage_return line.now) }
{
    match line {
        [front @ .., b'\r'] => front.len(),
        _ => line.len(),
    }
}
