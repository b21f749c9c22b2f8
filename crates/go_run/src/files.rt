// The scripts of several files.
ghost use Rattle.std.specs.Prelude.{◌≡◌, ℕ, ◌≤◌, List, length, All, Ok, Err, IfOk, IfErr, MatchResult};
ghost use Rattle.go_text.specs.Causes.{Rose};
ghost use Rattle.go_run.specs.Files.{ReadsFiles};
ghost use Rattle.go_run.specs.NamedText.{AreSteps};

use crate::named_text::read_script;
use crate::status::Status;
use go_io::Shelf;
use go_script::Script;
use go_text::Text;
use std::alloc::Global;

/// Reads the scripts of files in their order, up to the first that is refused.
pub fn read_files<H: Shelf>(
    alloc: Global,
    vertices: u32,
    names: &[Text],
    shelf: &mut H,
) -> Result<Vec<Script>, Status>
    ensures read { MatchResult result
        (λ scripts. ReadsFiles vertices (H.texts shelf.old) names.now (Ok scripts.items))
        (λ status. ReadsFiles vertices (H.texts shelf.old) names.now (Err status)) }
    ensures steps { IfOk result (λ scripts. All (AreSteps vertices) scripts.items × (length scripts.items ≡ length names.now)) }
    ensures same { H.texts shelf.new ≡ H.texts shelf.old }
    ensures later { (other : List ℕ) → H.faults shelf.old other ≤ H.faults shelf.new other }
    ensures fault { IfErr result (λ status. (name : List ℕ) → status ≡ Status.ReadFault name → Rose (H.faults shelf.old name) (H.faults shelf.new name)) }
{
    let mut scripts = Vec::new(alloc);
    for name in names {
        let script = read_script(alloc, vertices, name, shelf)?;
        let Ok(()) = scripts.push(script) else {
            return Err(Status::Memory);
        };
    }
    Ok(scripts)
}
