// How many entries commands may put, and which ones a load puts.
ghost use Rattle.std.specs.Prelude.{◌≡◌, ◌+◌, ◌-◌, ◌^◌, ◌<◌, ◌≤◌, ◌∷◌, [], min, length, take, drop, true, All};
ghost use Rattle.go_script.specs.Commands.{commands_of, put_by};
ghost use Rattle.go_script.specs.Until.{is_listed, loads_in};
ghost use Rattle.go_session.specs.Asked.{asked_with, entries_given, lists_of, may_put};

use go_script::{Command, Puts, Script};
use go_word::{Edge, Edges};

/// How many entries the commands of a script may put, from one of them on, where so many lists were put before.
/// More than a `u64` counts are as many as it does.
pub fn entries_in(
    script: &Script,
    from: usize,
    lists: &[u32],
    loaded: usize,
    loads: &[Edges],
) -> u64
    requires from { from ≤ length script.now }
    requires all { length lists.now ≡ loads_in (commands_of script.now) }
    requires loaded { loaded ≡ loads_in (take from (commands_of script.now)) }
    requires lists { All (λ n. n < length loads.now) lists.now }
    ensures { result ≡ min (length (may_put (drop from (asked_with (commands_of script.now) (lists_of loads.now lists.now))))) (2 ^ 64 - 1) }
{
    let mut count: u64 = 0;
    let mut next = loaded;
    for i in from..script.len() {
        let command = script.command(i);
        count = count.saturating_add(entries_of(command, lists, next, loads));
        if is_load(command) {
            next += 1;
        }
    }
    count
}

// How many entries a command may put, where so many lists were put before.
fn entries_of(command: &Command, lists: &[u32], loaded: usize, loads: &[Edges]) -> u64
    requires there { is_listed (put_by command.now) ≡ true → loaded < length lists.now }
    requires lists { All (λ n. n < length loads.now) lists.now }
    ensures { result ≡ length (entries_given (put_by command.now) (drop loaded (lists_of loads.now lists.now))) }
{
    match command.puts() {
        Puts::Nothing => 0,
        Puts::Entry { .. } | Puts::Offered { .. } => 1,
        Puts::Listed => list_at(lists, loaded, loads).len() as u64,
    }
}

/// Whether a command is a load.
pub fn is_load(command: &Command) -> bool
    ensures { result ≡ is_listed (put_by command.now) }
{
    command.puts() == Puts::Listed
}

/// The entries that a load puts, where so many lists were put before; none for other commands.
pub fn given_to<'a>(
    command: &Command,
    lists: &[u32],
    loaded: usize,
    loads: &'a [Edges],
) -> &'a [Edge]
    requires there { is_listed (put_by command.now) ≡ true → loaded < length lists.now }
    requires lists { All (λ n. n < length loads.now) lists.now }
    ensures { entries_given (put_by command.now) (result.now ∷ []) ≡ entries_given (put_by command.now) (drop loaded (lists_of loads.now lists.now)) }
{
    if is_load(command) {
        list_at(lists, loaded, loads)
    } else {
        &[]
    }
}

// The list that comes next.
fn list_at<'a>(lists: &[u32], loaded: usize, loads: &'a [Edges]) -> &'a [Edge]
    requires there { loaded < length lists.now }
    requires lists { All (λ n. n < length loads.now) lists.now }
    ensures { drop loaded (lists_of loads.now lists.now) ≡ result.now ∷ drop (loaded + 1) (lists_of loads.now lists.now) }
{
    loads[lists[loaded] as usize].as_slice()
}
