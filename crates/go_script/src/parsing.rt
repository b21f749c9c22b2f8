// A whole text, read as a script.
ghost use Rattle.std.specs.Prelude.{IfOk};
ghost use Rattle.go_script.specs.Grammar.{Reads};
ghost use Rattle.go_script.specs.Commands.{commands_of};
ghost use Rattle.go_script.specs.Places.{IsWithin};

use crate::fault::{LineFault, ScriptFault};
use crate::line::read_line;
use crate::places::Places;
use crate::script::Script;
use crate::step::Step;
use go_text::next_line;
use std::alloc::Global;

/// The script that a text writes over the vertices below `v`, or the first line with a fault.
///
/// One pass over the text. Memory is taken for the commands alone.
pub fn parse(alloc: Global, text: &[u8], v: u32) -> Result<Script, ScriptFault>
    ensures exact { Reads v text.now result }
    ensures within { IfOk result (λ script. IsWithin v (commands_of script)) }
{
    let mut script = Script::new(alloc);
    let mut places = Places::new();
    let mut number = 0;
    let mut from = 0;
    while let Some(line) = next_line(text, from) {
        number += 1;
        match read_line(alloc, &text[line.start..line.stop], v, &places) {
            Ok(None) => {}
            Ok(Some(command)) => {
                places.take(command.use_of());
                script.push(Step {
                    line: number,
                    command,
                })?;
            }
            Err(LineFault::Fault { kind }) => return Err(ScriptFault::Line { line: number, kind }),
            Err(LineFault::NoMemory) => return Err(ScriptFault::Memory),
        }
        from = line.next;
    }
    Ok(script)
}
