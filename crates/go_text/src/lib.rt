//! Text as the files and scripts of graphs have it: lines, words, decimal numbers, and the kinds of fault that reading finds.
//!
//! Contracts see each text as a list of bytes, `Text` too, which owns its bytes and is always UTF-8.
//! `next_line` and `next_word` answer places in the bytes that they were given, in one pass and without a copy. Their
//! contracts say exactly which, and how the step splits the list of lines or words: a caller that goes on from each
//! answer meets the lines of std's `lines`, or the `words` of this crate, one after another and no others.
//! `number` reads decimal digits up to a limit. It tells no byte at all, the first byte that is no digit and a number
//! above the limit apart, in that order. `put_number` and `put_text` append, and at an error leave the list as it was.
//! `FirstWords` has as many words of a line as judging it takes, and `read_number` and `read_vertex` read a word as an argument.
//! Only `Text::of`, `put_number` and `put_text` take memory, and want of memory is their only error.
//! Left out: signs, other bases, blanks other than space and tab, and any judgement on UTF-8 where bytes are handed in.
#![tactic(auto)]

mod arguments;
mod counts;
mod faults;
mod line;
mod numbers;
mod output;
mod text;
mod word;
mod words;

pub use arguments::{read_number, read_vertex};
pub use counts::one_more;
pub use faults::{Failed, FaultKind};
pub use line::{Line, next_line};
pub use numbers::{NumberFault, number};
pub use output::{put_number, put_text};
pub use text::Text;
pub use word::{Word, next_word};
pub use words::{FirstWords, is_skipped};

#[cfg(test)]
mod tests;
