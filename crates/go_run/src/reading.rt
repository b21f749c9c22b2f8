// Reading what a run is to do from scripts and the files that they load.
ghost use Rattle.std.specs.Prelude.{◌≡◌, ℕ, ◌≤◌, List, [], length, Ok, Err, MatchResult, IfErr};
ghost use Rattle.go_text.specs.Causes.{Rose};
ghost use Rattle.go_run.specs.Reading.{ReadsWork};
ghost use Rattle.go_run.specs.Work.Work.{driving};

use crate::files::read_files;
use crate::judging::judge;
use crate::lists::read_lists;
use crate::starting::start_sessions;
use crate::status::Status;
use go_io::Shelf;
use go_session::Session;
use go_text::Text;
use go_word::Edges;
use std::alloc::Global;

/// Reads the scripts under these names, and the lists that they load into `loads`, each name once; gives a session for each script.
/// Or the status that tells the first refusal: of a file, in their order; of a name that is loaded, by script and line; of a line that
/// waits for more than is certain to come; of too many puts.
pub fn read_scripts<H: Shelf>(
    alloc: Global,
    vertices: u32,
    names: &[Text],
    shelf: &mut H,
    loads: &mut Vec<Edges>,
) -> Result<Vec<Session>, Status>
    requires some { 1 ≤ length names.now }
    requires few { length names.now ≤ 8 }
    requires none { loads.old.items ≡ [] }
    ensures read { MatchResult result
        (λ sessions. ReadsWork vertices (H.texts shelf.old) (driving names.now) loads.new.items (Ok sessions.items))
        (λ status. ReadsWork vertices (H.texts shelf.old) (driving names.now) loads.new.items (Err status)) }
    ensures same { H.texts shelf.new ≡ H.texts shelf.old }
    ensures later { (other : List ℕ) → H.faults shelf.old other ≤ H.faults shelf.new other }
    ensures fault { IfErr result (λ status. (name : List ℕ) → status ≡ Status.ReadFault name → Rose (H.faults shelf.old name) (H.faults shelf.new name)) }
{
    let scripts = match read_files(alloc, vertices, names, shelf) {
        Ok(scripts) => scripts,
        Err(status) => return Err(status),
    };
    let numbers = match read_lists(alloc, vertices, &scripts, shelf, loads) {
        Ok(numbers) => numbers,
        Err(status) => return Err(status),
    };
    if let Err(status) = judge(alloc, vertices, names, &scripts, loads, &numbers) {
        return Err(status);
    }
    match start_sessions(alloc, scripts, &numbers) {
        Ok(sessions) => Ok(sessions),
        Err(_) => Err(Status::Memory),
    }
}
