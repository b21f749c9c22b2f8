// The sessions of scripts.
ghost use Rattle.std.specs.Prelude.{◌≡◌, ◌≤◌, ◌<◌, ◌^◌, length, All, IfOk};
ghost use Rattle.go_script.specs.Places.{IsScript};
ghost use Rattle.go_script.specs.Until.{is_listed};
ghost use Rattle.go_run.specs.Judged.{sessions_of, loads_of, loads_of_all};

use go_script::{Puts, Script};
use go_session::Session;
use std::alloc::{AllocError, Global};

/// The sessions of scripts, numbered from 1. `numbers` has for each `load` line, by script and line, the number of its list.
pub fn start_sessions(
    alloc: Global,
    scripts: Vec<Script>,
    numbers: &[u32],
) -> Result<Vec<Session>, AllocError>
    requires few { length scripts.items ≤ 8 }
    requires counted { length numbers.now ≡ loads_of_all scripts.items }
    ensures sessions { IfOk result (λ sessions. sessions.items ≡ sessions_of 1 scripts.items numbers.now) }
    ensures scripts { IfOk result (λ sessions. All (λ session. IsScript session.commands) sessions.items) }
{
    let mut sessions = Vec::new(alloc);
    let mut number = 0;
    let mut left = numbers;
    for script in scripts {
        number += 1;
        let (own, others) = left.split_at(loads_of(&script));
        sessions.push(Session::new(alloc, number, script, own)?)?;
        left = others;
    }
    Ok(sessions)
}

// How many loads a script has.
fn loads_of(script: &Script) -> usize
    ensures { result ≡ loads_of script.now }
{
    let mut count = 0;
    for at in 0..script.len() {
        if is_listed(script.command(at).puts()) {
            count += 1;
        }
    }
    count
}

// Whether the entries of a list are put.
fn is_listed(puts: Puts) -> bool
    ensures { result ≡ is_listed puts }
{
    match puts {
        Puts::Listed => true,
        Puts::Nothing | Puts::Entry { .. } | Puts::Offered { .. } => false,
    }
}
