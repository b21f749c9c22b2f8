// Scripts and their commands, at values that were worked out by hand from the rules.

use crate::{Command, Kind, Puts, Use, parse};
use go_word::Edge;
use std::test::Fail;

// The word of a command.
#[derive(Clone, Copy, Debug, PartialEq, Eq)]
enum Word {
    Add,
    Del,
    Offer,
    Load,
    View,
    Drop,
    Degree,
    Neigh,
    Hop,
    Level,
    Bfs,
    Rank,
    Stream,
    Close,
    Update,
    Until,
    Sync,
    Compact,
}

// A command's word, and the numbers that it names; of a `load` the length of its name.
type Told = (Word, u64, u64, u64);

fn told(command: &Command) -> Told {
    match command {
        Command::Add { src, dst } => pair(Word::Add, *src, *dst),
        Command::Del { src, dst } => pair(Word::Del, *src, *dst),
        Command::Offer { src, dst } => pair(Word::Offer, *src, *dst),
        Command::Load { name } => (Word::Load, name.get().bytes().len() as u64, 0, 0),
        Command::View { place } => at(Word::View, *place, 0),
        Command::Drop { place } => at(Word::Drop, *place, 0),
        Command::Degree { place, vertex } => at(Word::Degree, *place, *vertex),
        Command::Neigh { place, vertex } => at(Word::Neigh, *place, *vertex),
        Command::Hop { place, vertex } => at(Word::Hop, *place, *vertex),
        Command::Level {
            place,
            root,
            vertex,
        } => (
            Word::Level,
            u64::from(*place),
            u64::from(*root),
            u64::from(*vertex),
        ),
        Command::Bfs { place, root } => at(Word::Bfs, *place, *root),
        Command::Rank { place, count } => at(Word::Rank, *place, *count),
        Command::Stream { place } => at(Word::Stream, *place, 0),
        Command::Close { place } => at(Word::Close, *place, 0),
        Command::Update { place, max } => at(Word::Update, *place, *max),
        Command::Until { asked } => (Word::Until, *asked, 0, 0),
        Command::Sync => (Word::Sync, 0, 0, 0),
        Command::Compact => (Word::Compact, 0, 0, 0),
    }
}

fn pair(word: Word, src: u32, dst: u32) -> Told {
    (word, u64::from(src), u64::from(dst), 0)
}

fn at(word: Word, place: u8, number: u32) -> Told {
    (word, u64::from(place), u64::from(number), 0)
}

#[test]
fn scripts_are_read_with_their_lines(rt: HostRuntime) -> Result<(), Fail> {
    let spread = b"# first\n add 3 5\n\nview 0 \r\n\t#\n\tneigh\t00 3".as_slice();
    for (text, want) in [
        (b"".as_slice(), [].as_slice()),
        (b"\r\n \t\n#fly", [].as_slice()),
        (b"add 65535 0", [(1, pair(Word::Add, 65535, 0))].as_slice()),
        (
            b"del 0 65535\n",
            [(1, pair(Word::Del, 0, 65535))].as_slice(),
        ),
        (
            spread,
            [
                (2, pair(Word::Add, 3, 5)),
                (4, at(Word::View, 0, 0)),
                (6, at(Word::Neigh, 0, 3)),
            ]
            .as_slice(),
        ),
        (
            b"view 3\nview 1\nneigh 1 7\nneigh 3 7\n",
            [
                (1, at(Word::View, 3, 0)),
                (2, at(Word::View, 1, 0)),
                (3, at(Word::Neigh, 1, 7)),
                (4, at(Word::Neigh, 3, 7)),
            ]
            .as_slice(),
        ),
    ] {
        let script = parse(rt.alloc(), text, 65536)?;
        assert_eq!(rt; script.len(), want.len());
        assert_eq!(rt; script.is_empty(), want.is_empty());
        for i in 0..script.len() {
            assert_eq!(rt; script.line(i), want[i].0);
            assert_eq!(rt; told(script.command(i)), want[i].1);
        }
    }
    Ok(())
}

#[test]
fn each_command_is_read(rt: HostRuntime) -> Result<(), Fail> {
    let first = b"add 3 5\ndel 0 65535\noffer 1 2\nload gr\xc3\xb6\xc3\x9fe.bin\n";
    let views =
        b"view 3\ndegree 3 7\nneigh 3 7\nhop 3 7\nlevel 3 1 2\nbfs 3 9\nrank 3 1000\ndrop 3\n";
    let streams = b"stream 3\nupdate 3 65536\nclose 3\nuntil 67108864\nsync\ncompact\nview 3";
    for (text, want) in [
        (
            first.as_slice(),
            [
                pair(Word::Add, 3, 5),
                pair(Word::Del, 0, 65535),
                pair(Word::Offer, 1, 2),
                (Word::Load, 11, 0, 0),
            ]
            .as_slice(),
        ),
        (
            views.as_slice(),
            [
                at(Word::View, 3, 0),
                at(Word::Degree, 3, 7),
                at(Word::Neigh, 3, 7),
                at(Word::Hop, 3, 7),
                (Word::Level, 3, 1, 2),
                at(Word::Bfs, 3, 9),
                at(Word::Rank, 3, 1000),
                at(Word::Drop, 3, 0),
            ]
            .as_slice(),
        ),
        (
            streams.as_slice(),
            [
                at(Word::Stream, 3, 0),
                at(Word::Update, 3, 65536),
                at(Word::Close, 3, 0),
                (Word::Until, 67108864, 0, 0),
                (Word::Sync, 0, 0, 0),
                (Word::Compact, 0, 0, 0),
                at(Word::View, 3, 0),
            ]
            .as_slice(),
        ),
    ] {
        let script = parse(rt.alloc(), text, 65536)?;
        assert_eq!(rt; script.len(), want.len());
        for i in 0..script.len() {
            assert_eq!(rt; told(script.command(i)), want[i]);
        }
    }
    Ok(())
}

#[test]
fn a_load_keeps_the_name_of_its_file(rt: HostRuntime) -> Result<(), Fail> {
    let script = parse(rt.alloc(), b"load gr\xc3\xb6\xc3\x9fe.bin", 0)?;
    assert_eq!(rt; script.len(), 1);
    let Command::Load { name } = script.command(0) else {
        return Err(Fail::new("no load"));
    };
    assert_eq!(rt; name.get().as_text(), "größe.bin");
    Ok(())
}

#[test]
fn commands_tell_what_they_do_with_places_and_the_log(rt: HostRuntime) {
    let (place, src, dst) = (2, 1, 3);
    let edge = Edge {
        del: false,
        src,
        dst,
    };
    let view = Use::Fills {
        place,
        kind: Kind::View,
    };
    let closed = Use::Frees {
        place,
        kind: Kind::Stream,
    };
    assert_eq!(rt; Command::View { place }.use_of(), view);
    assert_eq!(rt; Command::Close { place }.use_of(), closed);
    assert_eq!(rt; Command::Sync.use_of(), Use::Nothing);
    assert_eq!(rt; Command::Add { src, dst }.puts(), Puts::Entry { edge });
    assert_eq!(rt; Command::Offer { src, dst }.puts(), Puts::Offered { edge });
    assert_eq!(rt; Command::Sync.puts(), Puts::Nothing);
}
