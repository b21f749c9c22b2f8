// The text of one name: a script's, or that of a file of edges.
ghost use Rattle.std.specs.Prelude.{◌≡◌, ◌⊎◌, ℕ, ◌≤◌, List, length, IfOk, IfErr, OnOk};
ghost use Rattle.go_text.specs.Causes.{Rose};
ghost use Rattle.go_run.specs.Input.{text_under, script_under};
ghost use Rattle.go_run.specs.Reading.{IsOrMemory};
ghost use Rattle.go_run.specs.NamedText.{IsOrNoMemory, ReadsName, with_text, steps_in, entries_in, list_under, AreSteps, AreEntries};
ghost use Rattle.go_run.specs.declared.limits.TheConstants.{TEXT_BYTES};

use crate::limits::TEXT_BYTES;
use crate::status::Status;
use go_io::{Fetched, Shelf};
use go_loader::{LoadFault, read_edges};
use go_script::{Script, ScriptFault, parse};
use go_text::{FaultKind, Text};
use go_word::Edges;
use std::alloc::Global;

/// Fetches the text of a name, and reads it as a script over so many vertices; or the status that says why not.
pub fn read_script<H: Shelf>(
    alloc: Global,
    vertices: u32,
    name: &Text,
    shelf: &mut H,
) -> Result<Script, Status>
    ensures read { ReadsName (H.texts shelf.old) name.now (script_under vertices name.now) result }
    ensures steps { IfOk result (AreSteps vertices) }
    ensures same { H.texts shelf.new ≡ H.texts shelf.old }
    ensures later { (other : List ℕ) → H.faults shelf.old other ≤ H.faults shelf.new other }
    ensures fault { IfErr result (λ status. status ≡ Status.ReadFault name.now → Rose (H.faults shelf.old name.now) (H.faults shelf.new name.now)) }
{
    let mut text = Vec::new(alloc);
    match fetch_text(alloc, name, shelf, &mut text) {
        Ok(()) => script_in(alloc, vertices, name, &text),
        Err(status) => Err(status),
    }
}

/// Fetches the text of a name, and reads it as a file of edges over so many vertices; or the status that says why not.
pub fn read_list<H: Shelf>(
    alloc: Global,
    vertices: u32,
    name: &Text,
    shelf: &mut H,
) -> Result<Edges, Status>
    ensures read { ReadsName (H.texts shelf.old) name.now (list_under vertices name.now) result }
    ensures entries { IfOk result (AreEntries vertices) }
    ensures same { H.texts shelf.new ≡ H.texts shelf.old }
    ensures later { (other : List ℕ) → H.faults shelf.old other ≤ H.faults shelf.new other }
    ensures fault { IfErr result (λ status. status ≡ Status.ReadFault name.now → Rose (H.faults shelf.old name.now) (H.faults shelf.new name.now)) }
{
    let mut text = Vec::new(alloc);
    match fetch_text(alloc, name, shelf, &mut text) {
        Ok(()) => list_in(alloc, vertices, name, &text),
        Err(status) => Err(status),
    }
}

// Fetches the text of a name, if it isn't too long; or the status that says why not.
fn fetch_text<H: Shelf>(
    alloc: Global,
    name: &Text,
    shelf: &mut H,
    text: &mut Vec<u8>,
) -> Result<(), Status>
    ensures read { ReadsName (H.texts shelf.old) name.now (text_under name.now) (with_text text.new.items result) }
    ensures short { OnOk result (length text.new.items ≤ TEXT_BYTES) }
    ensures same { H.texts shelf.new ≡ H.texts shelf.old }
    ensures later { (other : List ℕ) → H.faults shelf.old other ≤ H.faults shelf.new other }
    ensures fault { IfErr result (λ status. status ≡ Status.ReadFault name.now → Rose (H.faults shelf.old name.now) (H.faults shelf.new name.now)) }
{
    match shelf.fetch(name, TEXT_BYTES, text) {
        Fetched::Whole => Ok(()),
        Fetched::Missing => Err(no_file(alloc, name)),
        Fetched::TooLong => Err(Status::TooMuch {
            counted: TEXT_BYTES + 1,
            limit: TEXT_BYTES,
        }),
        Fetched::Failed => Err(read_fault(alloc, name)),
        Fetched::Memory => Err(Status::Memory),
    }
}

// The script in a text, or the status that tells its first fault.
fn script_in(alloc: Global, vertices: u32, name: &Text, text: &[u8]) -> Result<Script, Status>
    requires { length text.now ≤ TEXT_BYTES }
    ensures read { IsOrNoMemory (steps_in vertices name.now text.now) result }
    ensures steps { IfOk result (AreSteps vertices) }
{
    match parse(alloc, text, vertices) {
        Ok(script) => Ok(script),
        Err(ScriptFault::Line { line, kind }) => Err(faulty(alloc, name, line, kind)),
        Err(ScriptFault::Memory) => Err(Status::Memory),
    }
}

// The entries in a text, or the status that tells its first fault.
fn list_in(alloc: Global, vertices: u32, name: &Text, text: &[u8]) -> Result<Edges, Status>
    requires { length text.now ≤ TEXT_BYTES }
    ensures read { IsOrNoMemory (entries_in vertices name.now text.now) result }
    ensures entries { IfOk result (AreEntries vertices) }
{
    let mut entries = Vec::new(alloc);
    match read_edges(text, vertices, &mut entries) {
        Ok(()) => Ok(Edges::from_vec(entries)),
        Err(LoadFault::Line { line, kind }) => Err(faulty(alloc, name, line, kind)),
        Err(LoadFault::Memory) => Err(Status::Memory),
    }
}

// That a name isn't on the shelf.
fn no_file(alloc: Global, name: &Text) -> Status
    ensures { IsOrMemory (Status.NoFile name.now) result }
{
    match Text::of(alloc, name.as_text()) {
        Ok(name) => Status::NoFile { name },
        Err(_) => Status::Memory,
    }
}

// That reading the text of a name failed.
fn read_fault(alloc: Global, name: &Text) -> Status
    ensures { IsOrMemory (Status.ReadFault name.now) result }
{
    match Text::of(alloc, name.as_text()) {
        Ok(name) => Status::ReadFault { name },
        Err(_) => Status::Memory,
    }
}

/// That a line of the text of a name is faulty.
pub fn faulty(alloc: Global, name: &Text, line: u64, kind: FaultKind) -> Status
    ensures { IsOrMemory (Status.Script name.now line kind) result }
{
    match Text::of(alloc, name.as_text()) {
        Ok(name) => Status::Script { name, line, kind },
        Err(_) => Status::Memory,
    }
}
