// The script over entries that are generated.
ghost use Rattle.std.specs.Prelude.{◌≡◌, ◌≤◌, [], Option, Ok, MatchResult};
ghost use Rattle.go_run.specs.Input.{Texts};
ghost use Rattle.go_run.specs.Reading.{ReadsWork};
ghost use Rattle.go_run.specs.Work.Work.{generating};
ghost use Rattle.go_run.specs.declared.limits.TheConstants.{EDGES};

use crate::status::Status;
use go_loader::generate;
use go_script::{ScriptFault, parse};
use go_session::Session;
use go_word::Edges;
use std::alloc::Global;

// Each kind of work once, over the entries that are generated.
const SCRIPT: &[u8] = b"load @gen\nview 0\nrank 0 5\nbfs 0 0\nstream 1\nsync\ncompact\ndegree 0 0";

/// The session of the one script over so many entries that are generated from a seed, which come into `loads`; or want of memory.
pub fn generate_script(
    alloc: Global,
    vertices: u32,
    edges: u32,
    seed: u64,
    loads: &mut Vec<Edges>,
) -> Result<Vec<Session>, Status>
    requires some_vertex { 1 ≤ vertices }
    requires few { edges ≤ EDGES }
    requires none { loads.old.items ≡ [] }
    ensures { MatchResult result
        (λ sessions. (shelf : Option Texts) → ReadsWork vertices shelf (generating edges seed) loads.new.items (Ok sessions.items))
        (λ status. status ≡ Status.Memory) }
{
    let script = match parse(alloc, SCRIPT, vertices) {
        Ok(script) => script,
        Err(ScriptFault::Memory) => return Err(Status::Memory),
        Err(ScriptFault::Line { .. }) => unreachable!(),
    };
    let mut entries = Vec::new(alloc);
    let Ok(()) = generate(edges, seed, vertices, &mut entries) else {
        return Err(Status::Memory);
    };
    let Ok(()) = loads.push(Edges::from_vec(entries)) else {
        return Err(Status::Memory);
    };
    let Ok(session) = Session::new(alloc, 1, script, &[0]) else {
        return Err(Status::Memory);
    };
    let mut sessions = Vec::new(alloc);
    let Ok(()) = sessions.push(session) else {
        return Err(Status::Memory);
    };
    Ok(sessions)
}
