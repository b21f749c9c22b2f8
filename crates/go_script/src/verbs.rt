// The commands, read from the words of their lines.
ghost use Rattle.std.specs.Prelude.{◌≡◌, ℕ, Ok, Err, IfOk, MatchResult};
ghost use Rattle.go_text.specs.Texts.{texts};
ghost use Rattle.go_script.specs.Grammar.{load_of, name_in, plain_of, alone};
ghost use Rattle.go_script.specs.Answers.{Answers};
ghost use Rattle.go_script.specs.Places.{HasRightArguments};

use crate::arguments::{
    Asked, Pair, Share, read_asked, read_ends, read_entries, read_pair, read_place, read_share,
};
use crate::command::Command;
use crate::fault::LineFault;
use crate::limits::{RANK_LIMIT, UPDATE_LIMIT};
use go_text::{FaultKind, Text};
use sqlite_items::Boxed;
use std::alloc::Global;
use std::str::from_utf8;

// `load` with a name, which takes memory.
pub fn read_load(alloc: Global, arguments: &[&[u8]]) -> Result<Command, LineFault>
    ensures exact { Answers (load_of (texts arguments.now)) result }
    ensures right { (v : ℕ) → IfOk result (HasRightArguments v) }
{
    let [word] = arguments else {
        return Err(LineFault::Fault {
            kind: FaultKind::Count,
        });
    };
    let name = read_name(alloc, word)?;
    Ok(Command::Load { name })
}

// A name, where the word is UTF-8.
fn read_name(alloc: Global, word: &[u8]) -> Result<Boxed<Text>, LineFault>
    ensures { Answers (name_in word.now) result }
{
    let name = name_in(word)?;
    let name = Boxed::new(alloc, Text::of(alloc, name)?)?;
    Ok(name)
}

// The text that a word is, where it is UTF-8.
fn name_in(word: &[u8]) -> Result<&str, FaultKind>
    ensures { MatchResult result (λ name. name_in word.now ≡ Ok name.now) (λ kind. name_in word.now ≡ Err kind) }
{
    match from_utf8(word) {
        Ok(name) => Ok(name),
        Err(_) => Err(FaultKind::Name),
    }
}

// The command that a word asks for, with its arguments; none of those that name a file.
pub fn read_plain(word: &[u8], arguments: &[&[u8]], vertices: u32) -> Result<Command, FaultKind>
    ensures exact { result ≡ plain_of vertices word.now (texts arguments.now) }
    ensures right { IfOk result (HasRightArguments vertices) }
{
    if word == b"add".as_slice() {
        let ends = read_ends(arguments, vertices)?;
        Ok(Command::Add {
            src: ends.src,
            dst: ends.dst,
        })
    } else if word == b"del".as_slice() {
        let ends = read_ends(arguments, vertices)?;
        Ok(Command::Del {
            src: ends.src,
            dst: ends.dst,
        })
    } else if word == b"offer".as_slice() {
        let ends = read_ends(arguments, vertices)?;
        Ok(Command::Offer {
            src: ends.src,
            dst: ends.dst,
        })
    } else if word == b"view".as_slice() {
        let place = read_place(arguments)?;
        Ok(Command::View { place })
    } else if word == b"drop".as_slice() {
        let place = read_place(arguments)?;
        Ok(Command::Drop { place })
    } else if word == b"degree".as_slice() {
        let Asked { place, vertex } = read_asked(arguments, vertices)?;
        Ok(Command::Degree { place, vertex })
    } else if word == b"neigh".as_slice() {
        let Asked { place, vertex } = read_asked(arguments, vertices)?;
        Ok(Command::Neigh { place, vertex })
    } else if word == b"hop".as_slice() {
        let Asked { place, vertex } = read_asked(arguments, vertices)?;
        Ok(Command::Hop { place, vertex })
    } else if word == b"level".as_slice() {
        let Pair {
            place,
            root,
            vertex,
        } = read_pair(arguments, vertices)?;
        Ok(Command::Level {
            place,
            root,
            vertex,
        })
    } else if word == b"bfs".as_slice() {
        let Asked {
            place,
            vertex: root,
        } = read_asked(arguments, vertices)?;
        Ok(Command::Bfs { place, root })
    } else if word == b"rank".as_slice() {
        let Share { place, count } = read_share(arguments, RANK_LIMIT)?;
        Ok(Command::Rank { place, count })
    } else if word == b"stream".as_slice() {
        let place = read_place(arguments)?;
        Ok(Command::Stream { place })
    } else if word == b"close".as_slice() {
        let place = read_place(arguments)?;
        Ok(Command::Close { place })
    } else if word == b"update".as_slice() {
        let Share { place, count: max } = read_share(arguments, UPDATE_LIMIT)?;
        Ok(Command::Update { place, max })
    } else if word == b"until".as_slice() {
        let asked = read_entries(arguments)?;
        Ok(Command::Until { asked })
    } else if word == b"sync".as_slice() {
        alone(Command::Sync, arguments)
    } else if word == b"compact".as_slice() {
        alone(Command::Compact, arguments)
    } else {
        Err(FaultKind::Word)
    }
}

// A command that is its word alone.
fn alone(command: Command, arguments: &[&[u8]]) -> Result<Command, FaultKind>
    ensures { result ≡ alone command (texts arguments.now) }
{
    if arguments.is_empty() {
        Ok(command)
    } else {
        Err(FaultKind::Count)
    }
}
