// A text of edges, line by line.
ghost use Rattle.std.specs.Prelude.{◌≡◌, [], All, OnOk};
ghost use Rattle.go_word.specs.Log.{IsWithin};
ghost use Rattle.std.specs.Str.Lines.{lines};
ghost use Rattle.go_loader.specs.Reading.{AnswersItems};
ghost use Rattle.go_loader.specs.TextFile.{line_reads};

use crate::fault::LoadFault;
use crate::line::read_line;
use go_text::next_line;
use go_word::Edge;

// Appends the entries of the lines, up to the first with a fault.
pub(crate) fn read_text(text: &[u8], v: u32, out: &mut Vec<Edge>) -> Result<(), LoadFault>
    requires { out.old.items ≡ [] }
    ensures exact { AnswersItems (line_reads v) (lines text.now) out.new.items result }
    ensures within { OnOk result (All (IsWithin v) out.new.items) }
{
    let mut number = 0;
    let mut from = 0;
    while let Some(line) = next_line(text, from) {
        number += 1;
        match read_line(&text[line.start..line.stop], v) {
            Ok(None) => {}
            Ok(Some(edge)) => out.push(edge)?,
            Err(kind) => return Err(LoadFault::Line { line: number, kind }),
        }
        from = line.next;
    }
    Ok(())
}
