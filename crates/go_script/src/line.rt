// A line of a script, read as a command.
ghost use Rattle.std.specs.Prelude.{◌≡◌, List, IfOk, IfSome};
ghost use Rattle.go_text.specs.Word.{words};
ghost use Rattle.go_text.specs.Texts.{texts};
ghost use Rattle.go_script.specs.declared.command.Command.{Command as AnyCommand};
ghost use Rattle.go_script.specs.Grammar.{command_of, line_of};
ghost use Rattle.go_script.specs.Held.{Tells};
ghost use Rattle.go_script.specs.Answers.{Answers};
ghost use Rattle.go_script.specs.Places.{HasRightArguments};

use crate::command::Command;
use crate::fault::LineFault;
use crate::places::Places;
use crate::verbs::{read_load, read_plain};
use go_text::{FaultKind, FirstWords, is_skipped};
use std::alloc::Global;

// What a line writes after the commands that a table of the places tells of: nothing where it is skipped, else a command.
pub fn read_line(
    alloc: Global,
    line: &[u8],
    vertices: u32,
    places: &Places,
) -> Result<Option<Command>, LineFault>
    ensures exact { (before : List AnyCommand) → Tells places.now before → Answers (line_of vertices before (words line.now)) result }
    ensures right { IfOk result (λ command. IfSome command (HasRightArguments vertices)) }
{
    read_words(alloc, FirstWords::of(line).as_slice(), vertices, places)
}

// What a line with these words writes.
fn read_words(
    alloc: Global,
    words: &[&[u8]],
    vertices: u32,
    places: &Places,
) -> Result<Option<Command>, LineFault>
    ensures exact { (before : List AnyCommand) → Tells places.now before → Answers (line_of vertices before (texts words.now)) result }
    ensures right { IfOk result (λ command. IfSome command (HasRightArguments vertices)) }
{
    if is_skipped(words) {
        return Ok(None);
    }
    let command = read_command(alloc, words, vertices)?;
    if places.suit(command.use_of()) {
        Ok(Some(command))
    } else {
        Err(LineFault::Fault {
            kind: FaultKind::Place,
        })
    }
}

// The command that words write.
fn read_command(alloc: Global, words: &[&[u8]], vertices: u32) -> Result<Command, LineFault>
    ensures exact { Answers (command_of vertices (texts words.now)) result }
    ensures right { IfOk result (HasRightArguments vertices) }
{
    let [word, arguments @ ..] = words else {
        return Err(LineFault::Fault {
            kind: FaultKind::Word,
        });
    };
    if *word == b"load".as_slice() {
        return read_load(alloc, arguments);
    }
    let command = read_plain(word, arguments, vertices)?;
    Ok(command)
}
