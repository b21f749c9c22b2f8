// Scripts are judged together, with the lists that they load.
ghost use Rattle.std.specs.Prelude.{◌≡◌, ◌<◌, ◌≤◌, ◌+◌, ◌*◌, ◌^◌, length, map, sum, sum_by, All, IfOk, MatchResult};
ghost use Rattle.go_run.specs.Input.{counts_of};
ghost use Rattle.go_run.specs.Judged.{IsRight, IsWrong, loads_of_all, is_single, singles_in};
ghost use Rattle.go_run.specs.NamedText.{AreSteps, AreEntries};
ghost use Rattle.go_run.specs.declared.limits.TheConstants.{TEXT_BYTES};
ghost use Rattle.go_session.specs.Asked.{lists_of};

use crate::named_text::faulty;
use crate::status::Status;
use go_api::LOG_ENTRIES;
use go_script::{Puts, Script, check_until};
use go_text::{FaultKind, Text};
use go_word::Edges;
use std::alloc::{AllocError, Global};

/// Whether scripts may run: no line waits for more than is certain to come, and they don't put too much; or the status that says why not.
///
/// `numbers` has for each `load` line the number of its list.
pub fn judge(
    alloc: Global,
    vertices: u32,
    names: &[Text],
    scripts: &[Script],
    loads: &[Edges],
    numbers: &[u32],
) -> Result<(), Status>
    requires few { length scripts.now ≤ 8 }
    requires named { length names.now ≡ length scripts.now }
    requires steps { All (AreSteps vertices) scripts.now }
    requires entries { All (AreEntries vertices) loads.now }
    requires there { All (λ n. n < length loads.now) numbers.now }
    requires counted { length numbers.now ≡ loads_of_all scripts.now }
    ensures { MatchResult result
        (λ done. IsRight scripts.now (lists_of loads.now numbers.now))
        (IsWrong names.now scripts.now (lists_of loads.now numbers.now)) }
{
    let Ok(counts) = counts_of(alloc, loads, numbers) else {
        return Err(Status::Memory);
    };
    if let Some(place) = check_until(scripts, &counts) {
        let name = &names[place.script as usize];
        return Err(faulty(alloc, name, place.line, FaultKind::Until));
    }
    let counted = count_puts(scripts, &counts);
    if counted > LOG_ENTRIES {
        return Err(Status::TooMuch {
            counted,
            limit: LOG_ENTRIES,
        });
    }
    Ok(())
}

// How many entries the list of each `load` line has.
fn counts_of(alloc: Global, loads: &[Edges], numbers: &[u32]) -> Result<Vec<u64>, AllocError>
    requires { All (λ n. n < length loads.now) numbers.now }
    ensures { IfOk result (λ counts. counts.items ≡ counts_of (lists_of loads.now numbers.now)) }
{
    let mut counts = Vec::new(alloc);
    for number in numbers {
        counts.push(loads[*number as usize].as_slice().len() as u64)?;
    }
    Ok(counts)
}

// How many entries scripts may put, where the lists of their loads have so many.
fn count_puts(scripts: &[Script], counts: &[u64]) -> u64
    requires few { length scripts.now ≤ 8 }
    requires steps { All (λ steps. length steps ≤ TEXT_BYTES + 1) scripts.now }
    requires small { sum counts.now ≤ 2 ^ 56 }
    ensures { result ≡ sum_by singles_in scripts.now + sum counts.now }
{
    let mut count = 0;
    for i in 0..scripts.len() {
        count += singles_in(&scripts[i]);
    }
    for entries in counts {
        count += *entries;
    }
    count
}

// How many entries the commands of a script may put, but for those of its loads.
fn singles_in(script: &Script) -> u64
    ensures exact { result ≡ singles_in script.now }
    ensures few { result ≤ length script.now }
{
    let mut count = 0;
    for at in 0..script.len() {
        if is_single(script.command(at).puts()) {
            count += 1;
        }
    }
    count
}

// Whether what is put is one entry, certainly or if there is room.
fn is_single(puts: Puts) -> bool
    ensures { result ≡ is_single puts }
{
    match puts {
        Puts::Entry { .. } | Puts::Offered { .. } => true,
        Puts::Nothing | Puts::Listed => false,
    }
}
