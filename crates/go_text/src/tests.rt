// Lines, words, numbers and texts at values that were worked out by hand.

use super::*;
use std::test::Fail;

fn line(start: usize, stop: usize, next: usize) -> Option<Line> {
    Some(Line { start, stop, next })
}

fn word(start: usize, stop: usize) -> Option<Word> {
    Some(Word { start, stop })
}

#[test]
fn lines_lose_their_line_feed_and_one_carriage_return(rt: HostRuntime) {
    let cases = [
        ("", None),
        ("a\nb", line(0, 1, 2)),
        ("a\r\nb", line(0, 1, 3)),
        ("a\r\r\n", line(0, 2, 4)),
        ("a\r", line(0, 2, 2)),
        ("\n\n", line(0, 0, 1)),
        ("\r\n", line(0, 0, 2)),
        ("last", line(0, 4, 4)),
    ];
    for (text, want) in cases {
        assert_eq!(rt; next_line(text.as_bytes(), 0), want, "at {text:?}");
    }
    assert_eq!(rt; next_line(b"a\r\nb", 3), line(3, 4, 4));
    assert_eq!(rt; next_line(b"a\r\nb", 4), None);
}

#[test]
fn words_stand_between_spaces_and_tabs(rt: HostRuntime) {
    let cases = [
        ("", None),
        (" \t ", None),
        ("add", word(0, 3)),
        ("  add 3", word(2, 5)),
        ("\tadd\t3", word(1, 4)),
        ("a\rb c", word(0, 3)),
    ];
    for (text, want) in cases {
        assert_eq!(rt; next_word(text.as_bytes(), 0), want, "at {text:?}");
    }
    assert_eq!(rt; next_word(b"add 3 5 ", 3), word(4, 5));
    assert_eq!(rt; next_word(b"add 3 5 ", 7), None);
}

#[test]
fn numbers_are_read_up_to_a_limit(rt: HostRuntime) {
    let most = u64::MAX;
    let cases = [
        ("", most, Err(NumberFault::Empty)),
        ("0", 0, Ok(0)),
        ("007", 7, Ok(7)),
        ("8", 7, Err(NumberFault::TooLarge)),
        ("18446744073709551615", most, Ok(most)),
        ("18446744073709551616", most, Err(NumberFault::TooLarge)),
        (
            "99999999999999999999999999",
            most,
            Err(NumberFault::TooLarge),
        ),
        ("00000000000000000000000000000012", 1000, Ok(12)),
        ("+1", most, Err(NumberFault::NotADigit { at: 0 })),
        ("12a4", 1, Err(NumberFault::NotADigit { at: 2 })),
    ];
    for (text, limit, want) in cases {
        assert_eq!(rt; number(text.as_bytes(), limit), want, "at {text:?}");
    }
}

#[test]
fn numbers_and_texts_are_appended(rt: HostRuntime) -> Result<(), Fail> {
    let mut out = Vec::new(rt.alloc());
    for n in [0, 7, 10, 65536, 1000000, u64::MAX] {
        put_number(&mut out, n)?;
        put_text(&mut out, b";")?;
    }
    assert_eq!(rt;
        out.as_slice(),
        b"0;7;10;65536;1000000;18446744073709551615;".as_slice()
    );
    Ok(())
}

#[test]
fn a_text_keeps_its_bytes(rt: HostRuntime) -> Result<(), Fail> {
    let name = Text::of(rt.alloc(), "größe.txt")?;
    assert_eq!(rt; name.as_text(), "größe.txt");
    assert_eq!(rt; name.bytes().len(), 11);
    Ok(())
}

#[test]
fn kinds_of_fault_have_words(rt: HostRuntime) {
    assert_eq!(rt; FaultKind::Vertex.word(), "vertex");
    assert_eq!(rt; FaultKind::Short.word(), "short");
    assert_eq!(rt; Failed, Failed);
}
