// What the first commands of a script certainly put.
ghost use Rattle.std.specs.Prelude.{◌≡◌, ◌<◌, ◌≤◌, ◌+◌, ◌^◌, ℕ, List, length, take, sum, MatchResult};
ghost use Rattle.go_script.specs.declared.command.Command.{Command as AnyCommand};
ghost use Rattle.go_script.specs.Commands.{commands_of};
ghost use Rattle.go_script.specs.Until.{loads_in};
ghost use Rattle.go_script.specs.Walked.{tally_at, first_wait, asks_above, NeverExceeds, FirstExceeds};

use crate::puts::Puts;
use crate::script::Script;

// How far a script was walked, and what its commands up to there come to.
#[derive(Clone, Copy)]
pub struct Tally {
    // How many commands there are up to there.
    pub at: usize,
    // How many of them are `load` lines.
    pub loads: usize,
    // How many entries they certainly put.
    pub puts: u64,
}

impl Tally {
    // Before the first command.
    pub fn start() -> Tally
        ensures { (commands : List AnyCommand) (files : List ℕ) → result ≡ tally_at commands files 0 }
    {
        Tally {
            at: 0,
            loads: 0,
            puts: 0,
        }
    }

    // Behind one more command; `files` has the numbers of entries of the script's loads, and may have more.
    pub fn next(self, script: &Script, files: &[u64]) -> Tally
        requires stands { self ≡ tally_at (commands_of script.now) files.now self.at }
        requires goes_on { self.at < length script.now }
        requires told { loads_in (commands_of script.now) ≤ length files.now }
        requires short { length script.now < 2 ^ 63 }
        requires small { sum files.now ≤ 2 ^ 56 }
        ensures { result ≡ tally_at (commands_of script.now) files.now (self.at + 1) }
    {
        let at = self.at + 1;
        match script.command(self.at).puts() {
            Puts::Nothing | Puts::Offered { .. } => Tally { at, ..self },
            Puts::Entry { .. } => Tally {
                at,
                loads: self.loads,
                puts: self.puts + 1,
            },
            Puts::Listed => Tally {
                at,
                loads: self.loads + 1,
                puts: self.puts + files[self.loads],
            },
        }
    }
}

// What a script's commands before its first `until` come to, or all where it has none.
pub fn before_wait(script: &Script, files: &[u64]) -> Tally
    requires told { loads_in (commands_of script.now) ≤ length files.now }
    requires small { sum files.now ≤ 2 ^ 56 }
    ensures { result ≡ tally_at (commands_of script.now) files.now (first_wait (commands_of script.now)) }
{
    let mut tally = Tally::start();
    while tally.at < script.len() {
        if script.command(tally.at).asked().is_some() {
            return tally;
        }
        tally = tally.next(script, files);
    }
    tally
}

// How many `load` lines a script has, where so many commands have so many.
pub fn loads_in(script: &Script, begun: Tally) -> usize
    requires stands { begun.loads ≡ loads_in (take begun.at (commands_of script.now)) }
    requires within { begun.at ≤ length script.now }
    ensures { result ≡ loads_in (commands_of script.now) }
{
    let mut loads = begun.loads;
    for at in begun.at..script.len() {
        if script.command(at).puts().is_listed() {
            loads += 1;
        }
    }
    loads
}

// How many `load` lines a script has, where no line asks for more than the lines before it and `others` put; or the first such line.
//
// No command waits before `begun`.
pub fn first_against(
    script: &Script,
    files: &[u64],
    begun: Tally,
    others: u128,
) -> Result<usize, u64>
    requires stands { begun ≡ tally_at (commands_of script.now) files.now (first_wait (commands_of script.now)) }
    requires told { loads_in (commands_of script.now) ≤ length files.now }
    requires small { sum files.now ≤ 2 ^ 56 }
    requires few { others < 2 ^ 120 }
    ensures { MatchResult result
        (λ loads. (loads ≡ loads_in (commands_of script.now)) × NeverExceeds (commands_of script.now) files.now others)
        (λ line. FirstExceeds script.now files.now others line) }
{
    let mut tally = begun;
    while tally.at < script.len() {
        let asked = script.command(tally.at).asked();
        if asks_above(asked, u128::from(tally.puts) + others) {
            return Err(script.line(tally.at));
        }
        tally = tally.next(script, files);
    }
    Ok(tally.loads)
}

// Whether what a command asks for, where it asks, is above a number of entries.
fn asks_above(asked: Option<u64>, certain: u128) -> bool
    ensures { result ≡ asks_above asked certain }
{
    match asked {
        Some(asked) => certain < u128::from(asked),
        None => false,
    }
}
