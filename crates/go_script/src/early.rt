// One script among several: what it puts before it first waits, and its first line that waits for too much.
ghost use Rattle.std.specs.Prelude.{◌≡◌, ◌-◌, ◌<◌, ◌≤◌, ◌^◌, length, sum, MatchResult};
ghost use Rattle.go_script.specs.Commands.{commands_of};
ghost use Rattle.go_script.specs.Until.{loads_in, early_puts};
ghost use Rattle.go_script.specs.Walked.{session_of, NeverExceeds, FirstExceeds};

use crate::script::Script;
use crate::tally::{before_wait, first_against, loads_in};

// What a script puts before it first waits, and how many `load` lines it has.
#[derive(Clone, Copy)]
pub struct Early {
    pub puts: u64,
    pub loads: usize,
}

// What a script puts before it first waits; `left` has the numbers of entries of its loads, and then those of the scripts behind it.
pub fn early_of(script: &Script, left: &[u64]) -> Early
    requires told { loads_in (commands_of script.now) ≤ length left.now }
    requires small { sum left.now ≤ 2 ^ 56 }
    ensures puts { result.puts ≡ early_puts (session_of script.now left.now) }
    ensures loads { result.loads ≡ loads_in (commands_of script.now) }
    ensures fits { result.puts < 2 ^ 64 }
{
    let begun = before_wait(script, left);
    Early {
        puts: begun.puts,
        loads: loads_in(script, begun),
    }
}

// The first line of a script that waits for more than it and the others certainly put, where `total` is what all put before
// they first wait; or how many `load` lines the script has.
pub fn judge(script: &Script, left: &[u64], total: u128) -> Result<usize, u64>
    requires told { loads_in (commands_of script.now) ≤ length left.now }
    requires small { sum left.now ≤ 2 ^ 56 }
    requires among { early_puts (session_of script.now left.now) ≤ total }
    requires few { total < 2 ^ 120 }
    ensures { MatchResult result
        (λ loads. (loads ≡ loads_in (commands_of script.now)) × NeverExceeds (commands_of script.now) (session_of script.now left.now).files
        (total - early_puts (session_of script.now left.now)))
        (λ line. FirstExceeds script.now (session_of script.now left.now).files (total - early_puts (session_of script.now left.now)) line) }
{
    let begun = before_wait(script, left);
    first_against(script, left, begun, total - u128::from(begun.puts))
}
