// The rule on lines that wait, over all scripts of a run.
ghost use Rattle.std.specs.Prelude.{◌≡◌, ◌<◌, ◌≤◌, ◌^◌, drop, length, sum, sum_by, MatchOption};
ghost use Rattle.go_script.specs.Commands.{commands_of};
ghost use Rattle.go_script.specs.Until.{loads_in, early_puts, counted_of, KeepsUntil, IsFirstAgainst};

use crate::early::{early_of, judge};
use crate::script::Script;

/// A line of one of several scripts.
#[derive(Clone, Copy, Debug, PartialEq, Eq)]
pub struct Place {
    /// Which script, counted from 0.
    pub script: u32,
    /// Which line of it, counted from 1.
    pub line: u64,
}

/// The first line, script by script, that waits for more entries than are certain to come while its session waits there.
///
/// `loads` has the number of entries of each `load` line's file, by script and line. Two passes over the scripts, and no memory.
pub fn check_until(scripts: &[Script], loads: &[u64]) -> Option<Place>
    requires few { length scripts.now ≤ 8 }
    requires counted { length loads.now ≡ sum_by (λ steps. loads_in (commands_of steps)) scripts.now }
    requires small { sum loads.now ≤ 2 ^ 56 }
    ensures { MatchOption result (KeepsUntil scripts.now loads.now) (IsFirstAgainst scripts.now loads.now) }
{
    let total = total_early(scripts, loads);
    let mut from = 0;
    for i in 0..scripts.len() {
        match judge(&scripts[i], left_from(loads, from), total) {
            Ok(count) => from += count,
            Err(line) => {
                return Some(Place {
                    script: i as u32,
                    line,
                });
            }
        }
    }
    None
}

// How many entries all scripts certainly put before they first wait. Eight sums of 64 bits may take more than 64.
fn total_early(scripts: &[Script], loads: &[u64]) -> u128
    requires few { length scripts.now ≤ 8 }
    requires counted { length loads.now ≡ sum_by (λ steps. loads_in (commands_of steps)) scripts.now }
    requires small { sum loads.now ≤ 2 ^ 56 }
    ensures exact { result ≡ sum_by early_puts (counted_of scripts.now loads.now) }
    ensures few { result < 2 ^ 120 }
{
    let mut total = 0u128;
    let mut from = 0;
    for i in 0..scripts.len() {
        let early = early_of(&scripts[i], left_from(loads, from));
        total += u128::from(early.puts);
        from += early.loads;
    }
    total
}

// The numbers of entries from a place on.
fn left_from(loads: &[u64], from: usize) -> &[u64]
    requires { from ≤ length loads.now }
    ensures { result.now ≡ drop from loads.now }
{
    &loads[from..]
}
