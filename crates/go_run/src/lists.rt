// The lists that scripts load: each name is read once.
ghost use Rattle.std.specs.Prelude.{◌≡◌, ◌++◌, ◌∷◌, [], ℕ, ◌≤◌, List, MatchResult, IfErr};
ghost use Rattle.go_text.specs.Causes.{Rose};
ghost use Rattle.go_run.specs.Input.{names_loaded};
ghost use Rattle.go_run.specs.Lists.{numbers_in, HoldsLists, HasLists, RefusesLists};

use crate::known::{Known, number_under, put_number};
use crate::named_text::read_list;
use crate::status::Status;
use go_io::Shelf;
use go_script::{Command, Script};
use go_text::Text;
use go_word::Edges;
use std::alloc::Global;

/// Reads the lists that scripts load, by script and line, each name once; answers for each `load` line the number of its list.
pub fn read_lists<H: Shelf>(
    alloc: Global,
    vertices: u32,
    scripts: &[Script],
    shelf: &mut H,
    loads: &mut Vec<Edges>,
) -> Result<Vec<u32>, Status>
    requires { loads.old.items ≡ [] }
    ensures read { MatchResult result
        (λ numbers. HasLists vertices (H.texts shelf.old) loads.new.items (names_loaded scripts.now) numbers.items)
        (λ status. RefusesLists vertices (H.texts shelf.old) (names_loaded scripts.now) status) }
    ensures same { H.texts shelf.new ≡ H.texts shelf.old }
    ensures later { (other : List ℕ) → H.faults shelf.old other ≤ H.faults shelf.new other }
    ensures fault { IfErr result (λ status. (name : List ℕ) → status ≡ Status.ReadFault name → Rose (H.faults shelf.old name) (H.faults shelf.new name)) }
{
    let mut known = Known::new(alloc);
    let mut numbers = Vec::new(alloc);
    for i in 0..scripts.len() {
        let script = &scripts[i];
        for at in 0..script.len() {
            if let Command::Load { name } = script.command(at) {
                let number = number_of(alloc, vertices, name.get(), shelf, &mut known, loads)?;
                let Ok(()) = numbers.push(number) else {
                    return Err(Status::Memory);
                };
            }
        }
    }
    Ok(numbers)
}

// The number of the list of a name, which is read where it isn't known yet.
fn number_of<H: Shelf>(
    alloc: Global,
    vertices: u32,
    name: &Text,
    shelf: &mut H,
    known: &mut Known,
    loads: &mut Vec<Edges>,
) -> Result<u32, Status>
    ensures read { (names : List (List ℕ)) (numbers : List ℕ) → HoldsLists vertices (H.texts shelf.old) (numbers_in known.old) loads.old.items names numbers →
        MatchResult result
        (λ number. HoldsLists vertices (H.texts shelf.old) (numbers_in known.new) loads.new.items (names ++ name.now ∷ []) (numbers ++ number ∷ []))
        (λ status. RefusesLists vertices (H.texts shelf.old) (names ++ name.now ∷ []) status) }
    ensures same { H.texts shelf.new ≡ H.texts shelf.old }
    ensures later { (other : List ℕ) → H.faults shelf.old other ≤ H.faults shelf.new other }
    ensures fault { IfErr result (λ status. (other : List ℕ) → status ≡ Status.ReadFault other → Rose (H.faults shelf.old other) (H.faults shelf.new other)) }
{
    if let Some(number) = number_under(known, name) {
        return Ok(number);
    }
    let list = read_list(alloc, vertices, name, shelf)?;
    let Ok(number) = u32::try_from(loads.len()) else {
        return Err(Status::Memory);
    };
    let Ok(()) = put_number(known, alloc, name, number) else {
        return Err(Status::Memory);
    };
    let Ok(()) = loads.push(list) else {
        return Err(Status::Memory);
    };
    Ok(number)
}
